//! What the definitions say of how the commands of a worked script end, each the contract of a function that does nothing.

ghost use Rattle.std.specs.Prelude.{[], ◌++◌, codes};
ghost use Rattle.cxl_inputs.specs.declared.status.Status.TheVariants as statuses;
ghost use Rattle.cxl_turns.specs.Endings.{IsCutBehind};
ghost use Rattle.cxl_worked_runs.specs.Runs.{sink, source, ended, script, reply, EndsWith};

/// A law of text: what the sink took before it failed in a second text, behind a first one that it took whole.
pub fn cuts_on_examples()
    ensures cut { IsCutBehind (codes "ab") (codes "cde") (sink [] 0) (sink (codes "abc") 1) }
    ensures at_once { IsCutBehind (codes "ab") (codes "cde") (sink [] 0) (sink (codes "ab") 1) }
    ensures before_last { IsCutBehind (codes "ab") (codes "cde") (sink [] 0) (sink (codes "abcd") 1) }
    ensures not_whole { ¬ (IsCutBehind (codes "ab") (codes "cde") (sink [] 0) (sink (codes "abcde") 1)) }
    ensures not_in_first { ¬ (IsCutBehind (codes "ab") (codes "cde") (sink [] 0) (sink (codes "a") 1)) }
    ensures not_another { ¬ (IsCutBehind (codes "ab") (codes "cde") (sink [] 0) (sink (codes "abd") 1)) }
    ensures not_without_fault { ¬ (IsCutBehind (codes "ab") (codes "cde") (sink [] 0) (sink (codes "abc") 0)) }
    ensures not_past_fault { ¬ (IsCutBehind (codes "ab") (codes "cde") (sink [] 0) (sink (codes "abc") 2)) }
{}

/// A law of scripts: how one of a single line, which is refused, comes to its end, and how not.
pub fn script_ends_on_examples()
    ensures done { EndsWith (source [] 0) (sink reply 0) statuses.Done }
    ensures read_fault { EndsWith (source [] 1) (sink (reply ++ ended (codes "error: script read failed")) 0) statuses.ReadFault }
    ensures cut { EndsWith (source [] 0) (sink (codes "no such") 1) statuses.WriteFault }
    ensures cut_behind { EndsWith (source [] 1) (sink (reply ++ codes "error") 1) statuses.WriteFault }
    ensures memory { EndsWith (source [] 0) (sink reply 0) statuses.Memory }
    ensures not_unwritten { ¬ (EndsWith (source [] 0) (sink [] 0) statuses.Done) }
    ensures not_unread { ¬ (EndsWith (source script 0) (sink reply 0) statuses.Done) }
    ensures not_past_source_fault { ¬ (EndsWith (source [] 1) (sink reply 0) statuses.Done) }
    ensures not_past_sink_fault { ¬ (EndsWith (source [] 0) (sink reply 1) statuses.Done) }
    ensures not_untold { ¬ (EndsWith (source [] 1) (sink [] 0) statuses.ReadFault) }
    ensures not_read_fault { ¬ (EndsWith (source [] 0) (sink (reply ++ ended (codes "error: script read failed")) 0) statuses.ReadFault) }
    ensures not_write_fault { ¬ (EndsWith (source [] 0) (sink (codes "no such") 0) statuses.WriteFault) }
    ensures not_memory_in_reply { ¬ (EndsWith (source [] 0) (sink (codes "no such") 0) statuses.Memory) }
    ensures not_memory_behind_source_fault { ¬ (EndsWith (source [] 1) (sink reply 0) statuses.Memory) }
    ensures not_memory_behind_sink_fault { ¬ (EndsWith (source [] 0) (sink reply 1) statuses.Memory) }
    ensures not_read_fault_past_sink_fault { ¬ (EndsWith (source [] 1) (sink (reply ++ ended (codes "error: script read failed")) 1) statuses.ReadFault) }
    ensures not_bus_fault { ¬ (EndsWith (source [] 0) (sink reply 0) statuses.BusFault) }
{}
