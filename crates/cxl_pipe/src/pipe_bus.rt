//! The bus whose registers are another program's: each word is asked for and told in lines.

ghost use Rattle.std.specs.Prelude.{◌≡◌, ◌≤◌, ◌^◌, ◌⊎◌, ◌&&◌, ℕ, List, [], not, true, false, Some, None, length, slice_get, slice_set, IfOk, OnOk, OnErr, IsOk};
ghost use Rattle.std.specs.Bool.{OnTrue, OnFalse};
ghost use Rattle.cxl_bus.specs.RegsState.{IsUntouched};
ghost use Rattle.cxl_enc.specs.Counters.{next_count};
ghost use Rattle.cxl_enc.specs.Faults.{HasCause};
ghost use Rattle.cxl_regs.specs.Blocks.{IsPlace, word_in, blocks_after};
ghost use Rattle.cxl_pipe.specs.Peer.{words_of, all_words, AreTold, StopsAmong, powered_on, HasPoweredOn, first_cap, EndsInStep, EndsStrange};
ghost use Rattle.cxl_pipe.specs.Pipe.{state_of, KeepsRegisters, IsHeard, IsUnheard, HasAnswer, HasNoAnswer, AccessFailed, faults_after};
ghost use Rattle.cxl_pipe.specs.Commits.{IsSettled, IsUnsettled, IsTakenBack, is_read_back, IsReadBack, IsRefused, WasTaken, WriteFailed};
ghost use Rattle.cxl_pipe.specs.Protocol.{read_question, write_question, tells_word, tells_pending, answers_read, says_taken, answers_write};

use crate::answer::{
    answers_read, answers_write, is_commit, says_taken, tells_pending, tells_word,
};
use crate::peer::{ANSWER_LIMIT, Peer};
use crate::question::Question;
use crate::trouble::{Last, Trouble, Wanted};
use cxl_bus::Regs;
use cxl_enc::{Failed, Memory};
use cxl_regs::{Block, copies};
use std::alloc::Global;
use std::marker::Model;

/// So often at the most a control word is read behind a commit. (This project's rule.)
const READ_BACK_LIMIT: u32 = 1_000;

/// Registers of another program, the peer, which is asked line by line. It keeps the blocks as the write rules leave
/// them, and holds each word that the peer tells against them. A peer that is out of step is strange from then on, and is
/// asked nothing more. It tells no trail, and no place of a fault.
#[derive(Drop)]
pub struct PipeBus<P: Peer> {
    blocks: Vec<Block>,
    peer: P,
    /// What came behind the last question stands in front.
    line: Vec<u8>,
    came: usize,
    strange: bool,
    reads_back: bool,
    faults: u64,
    /// What was asked last.
    last: Last,
}

impl<P: Peer> Model for PipeBus<P> {
    ghost use Rattle.std.specs.Prelude.{◌≡◌, ◌≤◌, take, vec_len};
    ghost use Rattle.cxl_pipe.specs.Pipe.{Pipe};

    ghost Value = { Pipe };

    ghost view = { λ b. record {
      blocks = b.blocks.items;
      peer = P.state b.peer;
      line = take b.came b.line.items;
      strange = b.strange;
      reads_back = b.reads_back;
      faults = b.faults;
    } };

    ghost invariant = { λ b. (vec_len b.line ≡ 4097) × (b.came ≤ 4097) };
}

impl<P: Peer> PipeBus<P> {
    /// A bus with no block, over a peer; whether each commit is to be read back. Takes memory for one line.
    pub fn new(alloc: Global, peer: P, reads_back: bool) -> Result<PipeBus<P>, Memory>
    where
        P: Drop,
        ensures { IfOk result (λ bus. bus ≡ record {
          blocks = [];
          peer = P.state peer;
          line = [];
          strange = false;
          reads_back = reads_back;
          faults = 0;
        }) }
    {
        Ok(PipeBus {
            blocks: Vec::new(alloc),
            peer,
            line: vec![in alloc; 0; ANSWER_LIMIT + 1]?,
            came: 0,
            strange: false,
            reads_back,
            faults: 0,
            last: Last::new(),
        })
    }

    /// Whether the peer is strange: out of step, or its registers were others when it was powered on.
    pub fn is_strange(&self) -> bool
        ensures { result ≡ self.now.strange }
    {
        self.strange
    }

    /// Asks for two words whose values differ at a bridge, and says whether the peer told them: one that is an answer
    /// behind does not. It is to be asked when a run has ended.
    pub fn ends_in_step(&mut self) -> bool
        ensures yes { OnTrue result (EndsInStep self.old self.new) }
        ensures no { OnFalse result (EndsStrange self.old self.new) }
    {
        if self.is_strange() {
            return false;
        }
        let Some(cap) = self.first_cap() else {
            return true;
        };
        self.tells(0, 0, cap) && self.tells(0, 8, 0)
    }

    /// What was asked last, and what came of it, as a text.
    pub fn trouble(&self) -> Trouble<'_> {
        Trouble {
            last: &self.last,
            line: self.said(),
        }
    }

    /// Asks for each word of these blocks, and says whether the peer told them all.
    fn tells_all(&mut self, blocks: &[Block]) -> bool
        ensures yes { OnTrue result (AreTold (all_words blocks.now) self.old self.new) }
        ensures no { OnFalse result (StopsAmong (all_words blocks.now) self.old self.new
            ⊎ ((2 ^ 32 ≤ length blocks.now) × (self.new ≡ self.old))) }
        ensures kept { KeepsRegisters self.old self.new }
    {
        let Ok(count) = u32::try_from(blocks.len()) else {
            return false;
        };
        for node in 0..count {
            if !self.tells_block(node, &blocks[node as usize]) {
                return false;
            }
        }
        true
    }

    /// Asks for each word of a node's block, and says whether the peer told them all.
    fn tells_block(&mut self, node: u32, block: &Block) -> bool
        ensures yes { OnTrue result (AreTold (words_of node block.now) self.old self.new) }
        ensures no { OnFalse result (StopsAmong (words_of node block.now) self.old self.new) }
        ensures kept { KeepsRegisters self.old self.new }
    {
        for place in 0..4 + 8 * u32::from(block.count()) {
            let off = 4 * place;
            let word = block.read32(off).unwrap();
            if !self.tells(node, off, word) {
                return false;
            }
        }
        true
    }

    /// Asks for a word, and says whether the peer told this one.
    fn tells(&mut self, node: u32, off: u32, word: u32) -> bool
        ensures yes { OnTrue result (HasAnswer (read_question node off) (tells_word word) self.old self.new) }
        ensures no { OnFalse result (HasNoAnswer (read_question node off) (tells_word word) answers_read self.old self.new) }
        ensures kept { KeepsRegisters self.old self.new }
    {
        if !self.hears(Question::read(node, off), Wanted::Word(word)) {
            return false;
        }
        if tells_word(self.said(), word) {
            return true;
        }
        if !answers_read(self.said()) {
            self.end();
        }
        false
    }

    /// Asks for a write, and says whether the peer took it.
    fn takes(&mut self, node: u32, off: u32, value: u32) -> bool
        ensures yes { OnTrue result (HasAnswer (write_question node off value) says_taken self.old self.new) }
        ensures no { OnFalse result (HasNoAnswer (write_question node off value) says_taken answers_write self.old self.new) }
        ensures kept { KeepsRegisters self.old self.new }
    {
        if !self.hears(Question::write(node, off, value), Wanted::Taken) {
            return false;
        }
        if says_taken(self.said()) {
            return true;
        }
        if !answers_write(self.said()) {
            self.end();
        }
        false
    }

    /// Sends a question, and says whether a line alone came.
    fn hears(&mut self, question: Question, wanted: Wanted) -> bool
        ensures yes { OnTrue result (IsHeard question self.old self.new) }
        ensures no { OnFalse result (IsUnheard question self.old self.new) }
        ensures kept { KeepsRegisters self.old self.new }
    {
        let answer = self.peer.ask(question.bytes(), &mut self.line);
        self.last.asked(question, wanted);
        match answer {
            Ok(came) => {
                self.came = came;
                true
            }
            Err(astray) => {
                self.came = astray.came;
                self.last.lost(astray.how);
                self.strange = true;
                false
            }
        }
    }

    /// What came behind the last question.
    fn said(&self) -> &[u8]
        ensures { result.now ≡ self.now.line }
    {
        &self.line[..self.came]
    }

    /// Reads the control word behind a commit, until it is this one, or is not pending.
    fn settles(&mut self, node: u32, off: u32, word: u32) -> bool
        ensures yes { OnTrue result (IsSettled node off word self.old self.new) }
        ensures no { OnFalse result (IsUnsettled node off word self.old self.new) }
        ensures kept { KeepsRegisters self.old self.new }
    {
        for _count in 0..READ_BACK_LIMIT {
            if self.tells(node, off, word) {
                return true;
            }
            if !self.is_pending() {
                return false;
            }
        }
        false
    }

    /// The peer is in step, and its last answer told a commit that is neither done nor refused.
    fn is_pending(&self) -> bool
        ensures { result ≡ (not self.now.strange && tells_pending self.now.line) }
    {
        !self.strange && tells_pending(self.said())
    }

    /// Whether a write is to be read back.
    fn is_read_back(&self, off: u32, value: u32) -> bool
        ensures { result ≡ is_read_back self.now off value }
    {
        self.reads_back && is_commit(off, value)
    }

    /// Sends the word that stood there once more, if the peer is in step.
    fn takes_back(&mut self, node: u32, off: u32, word: u32)
        ensures sent { IsTakenBack node off word self.old self.new }
        ensures kept { KeepsRegisters self.old self.new }
    {
        if !self.strange {
            let _ = self.takes(node, off, word);
        }
    }

    /// Reads back what a write that was taken leaves, where that is wanted. Where it is not there, the word that stood
    /// there before is sent again.
    fn read_back(&mut self, node: u32, off: u32, value: u32) -> bool
        requires { IsPlace self.old.blocks node off }
        ensures yes { OnTrue result (IsReadBack node off value self.old self.new) }
        ensures no { OnFalse result (IsRefused node off value self.old self.new) }
        ensures kept { KeepsRegisters self.old self.new }
    {
        if !self.is_read_back(off, value) {
            return true;
        }
        let left = self.word_behind(node, off, value);
        if self.settles(node, off, left) {
            return true;
        }
        let word = self.word(node, off);
        self.takes_back(node, off, word);
        false
    }

    /// The word that the write rules left.
    fn word(&self, node: u32, off: u32) -> u32
        requires { IsPlace self.now.blocks node off }
        ensures { word_in self.now.blocks node off ≡ Some result }
    {
        self.blocks[node as usize].read32(off).unwrap()
    }

    /// The word that a write would leave there.
    fn word_behind(&self, node: u32, off: u32, value: u32) -> u32
        requires { IsPlace self.now.blocks node off }
        ensures { word_in (blocks_after self.now.blocks node off value) node off ≡ Some result }
    {
        let mut block = self.blocks[node as usize].copy();
        block.write32(off, value);
        block.read32(off).unwrap()
    }

    /// The first node's capability word.
    fn first_cap(&self) -> Option<u32>
        ensures { result ≡ first_cap self.now.blocks }
    {
        match self.blocks.first() {
            Some(block) => Some(block.cap()),
            None => None,
        }
    }

    /// Leaves the blocks as a write does.
    fn keep(&mut self, node: u32, off: u32, value: u32)
        requires { IsPlace self.old.blocks node off }
        ensures { self.new ≡ record self.old { blocks = blocks_after self.old.blocks node off value } }
    {
        self.blocks[node as usize].write32(off, value);
    }

    /// Holds these blocks, over a peer that is in step. Takes memory.
    fn begin(&mut self, alloc: Global, start: &[Block]) -> Result<(), Memory>
        ensures ok { OnOk result (self.new ≡ powered_on start.now self.old) }
        ensures err { OnErr result (self.new ≡ self.old) }
    {
        self.blocks = copies(alloc, start)?;
        self.strange = false;
        Ok(())
    }

    /// Lets every later access fail.
    fn end(&mut self)
        ensures { self.new ≡ record self.old { strange = true } }
    {
        self.strange = true;
    }

    /// Counts a failed access.
    fn fail(&mut self) -> Failed
        ensures after { self.new ≡ record self.old { faults = next_count self.old.faults } }
        ensures counts { self.old.faults ≤ self.new.faults }
    {
        self.faults = self.faults.saturating_add(1);
        Failed
    }
}

impl<P: Peer> Regs for PipeBus<P> {
    ghost state = { state_of };

    /// The peer is asked for each word of the blocks, in order. A fault has no answer here: where a word is not told,
    /// every later access fails.
    fn power_on(&mut self, alloc: Global, start: &[Block]) -> Result<(), Memory>
        ensures ok { OnOk result (HasPoweredOn start.now self.old self.new) }
        ensures holds { OnOk result (self.new.blocks ≡ start.now) }
        ensures count { self.new.faults ≡ self.old.faults }
        ensures err { OnErr result (self.new ≡ self.old) }
    {
        self.begin(alloc, start)?;
        if !self.tells_all(start) {
            self.end();
        }
        Ok(())
    }

    fn read32(&mut self, node: u32, off: u32) -> Result<u32, Failed>
        requires { IsPlace self.old.blocks node off }
        // A word is given only where the question was sent and what came behind it is a line alone that tells this
        // word, which is that of the write rules.
        ensures word { IfOk result (λ word. word_in self.old.blocks node off ≡ Some word) }
        ensures told { IfOk result (λ word. (self.old.strange ≡ false)
            × HasAnswer (read_question node off) (tells_word word) self.old self.new) }
        // A failure has a reason, and a read leaves the blocks.
        ensures failed { OnErr result ((word : ℕ) × (word_in self.old.blocks node off ≡ Some word)
            × AccessFailed (read_question node off) (tells_word word) answers_read self.old self.new) }
        ensures same { IsUntouched (state_of self.old) (state_of self.new) }
        // The count rises by one where it fails, and else stays.
        ensures faults { self.new.faults ≡ faults_after result self.old.faults }
        ensures counts { self.old.faults ≤ self.new.faults }
        ensures cause { HasCause result self.old.faults self.new.faults }
    {
        let word = self.word(node, off);
        if self.is_strange() {
            return Err(self.fail());
        }
        if !self.tells(node, off, word) {
            return Err(self.fail());
        }
        Ok(word)
    }

    fn write32(&mut self, node: u32, off: u32, value: u32) -> Result<(), Failed>
        requires { IsPlace self.old.blocks node off }
        // `Ok` comes only where the write was sent and the line that came alone behind it says so, and, where commits
        // are read back, the control word that the write rules leave was told; the blocks are then those of the write
        // rules. A write that failed leaves them, and has a reason.
        ensures taken { OnOk result (WasTaken node off value self.old self.new) }
        ensures failed { OnErr result (WriteFailed node off value self.old self.new) }
        ensures written { OnOk result (self.new.blocks ≡ blocks_after self.old.blocks node off value) }
        ensures err { OnErr result (IsUntouched (state_of self.old) (state_of self.new)) }
        // The count rises by one where it fails, and else stays.
        ensures faults { self.new.faults ≡ faults_after result self.old.faults }
        ensures counts { self.old.faults ≤ self.new.faults }
        ensures cause { HasCause result self.old.faults self.new.faults }
    {
        if self.is_strange() {
            return Err(self.fail());
        }
        if !self.takes(node, off, value) {
            return Err(self.fail());
        }
        if !self.read_back(node, off, value) {
            return Err(self.fail());
        }
        self.keep(node, off, value);
        Ok(())
    }
}
