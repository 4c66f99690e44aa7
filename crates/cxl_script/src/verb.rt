//! The verbs of a script.

ghost use Rattle.std.specs.Prelude.{◌≡◌, ◌≢◌, length};
ghost use Rattle.cxl_script.specs.Verbs.{verb_of};

/// The first word of a command.
#[derive(Clone, Copy, PartialEq, Eq)]
pub(crate) enum Verb {
    Create,
    Destroy,
    Show,
    Down,
    Up,
    Load,
    Store,
    Poison,
    Begin,
    Step,
    Abort,
    Range,
    Spread,
    Copy,
    Move,
}

/// The verb that a word is.
pub(crate) fn verb_of(word: &[u8]) -> Option<Verb>
    ensures { result ≡ verb_of word.now }
{
    // By the length first, since what is known of a word grows with each text that it was compared with.
    match word.len() {
        4 => verb_of_four(word),
        5 => verb_of_five(word),
        6 => verb_of_six(word),
        _ => verb_of_other(word),
    }
}

/// The verb that a word of four letters is.
fn verb_of_four(word: &[u8]) -> Option<Verb>
    requires { length word.now ≡ 4 }
    ensures { result ≡ verb_of word.now }
{
    match word {
        b"show" => Some(Verb::Show),
        b"down" => Some(Verb::Down),
        b"load" => Some(Verb::Load),
        b"step" => Some(Verb::Step),
        b"copy" => Some(Verb::Copy),
        b"move" => Some(Verb::Move),
        _ => None,
    }
}

/// The verb that a word of five letters is.
fn verb_of_five(word: &[u8]) -> Option<Verb>
    requires { length word.now ≡ 5 }
    ensures { result ≡ verb_of word.now }
{
    match word {
        b"store" => Some(Verb::Store),
        b"begin" => Some(Verb::Begin),
        b"abort" => Some(Verb::Abort),
        b"range" => Some(Verb::Range),
        _ => None,
    }
}

/// The verb that a word of six letters is.
fn verb_of_six(word: &[u8]) -> Option<Verb>
    requires { length word.now ≡ 6 }
    ensures { result ≡ verb_of word.now }
{
    match word {
        b"create" => Some(Verb::Create),
        b"poison" => Some(Verb::Poison),
        b"spread" => Some(Verb::Spread),
        _ => None,
    }
}

/// The verb that a word of another length is.
fn verb_of_other(word: &[u8]) -> Option<Verb>
    requires four { length word.now ≢ 4 }
    requires five { length word.now ≢ 5 }
    requires six { length word.now ≢ 6 }
    ensures { result ≡ verb_of word.now }
{
    match word {
        b"up" => Some(Verb::Up),
        b"destroy" => Some(Verb::Destroy),
        _ => None,
    }
}
