//! The entries of a journal.
ghost use Rattle.std.specs.Prelude.{◌≡◌, ◌≤◌, ◌^◌, Option, None, take, length, slice_get};
ghost use Rattle.vlink.specs.declared.message.Message.{Message};
ghost use Rattle.virtual_time.specs.Law.{Collected, Posted, Published, steps_of, step_by};
ghost use Rattle.antimessages.specs.Mailing.{letters_for};
ghost use Rattle.journal.specs.Deeds.{IsWithinMail, deed_of, entry_by};

use crate::block::Block;
use antimessages::Mail;
use std::marker::Model;
use std::snapshot::Snapshot;
use virtual_time::Move;
use vlink::Step;

/// What was done at one go, as an entry stores it.
#[derive(Drop)]
pub(crate) enum Content {
    /// This number of letters was taken from the front of the mail of the process. The snapshot is that mail: it has no bytes, and only
    /// proofs read it.
    Letters(u32, Snapshot<Mail>),
    /// These steps were done, and then the outbox was posted.
    Block(Block),
    /// GVT was computed and set.
    Gvt,
}

/// An entry of the journal: what one process did at one go. Clauses see the entry of the law.
#[derive(Drop)]
pub struct Entry {
    process: u16,
    /// The place of the previous entry of the same process, from 0.
    prior: Option<u64>,
    content: Content,
}

impl Model for Entry {
    ghost use Rattle.vlink.specs.declared.message.Message.{Message};
    ghost use Rattle.virtual_time.specs.Law.{Entry as LawEntry};
    ghost use Rattle.journal.specs.Deeds.{IsWithinMail, deed_of, entry_by};

    ghost Value = { LawEntry Message };

    ghost view = { λ e. entry_by e.process e.prior (deed_of e.process e.content) };

    ghost invariant = { λ e. IsWithinMail e.process e.content };
}

impl Entry {
    /// Makes the entry of a process that took the first `count` letters of its mail. Takes no memory.
    pub fn collected(process: u16, prior: Option<u64>, mail: &Mail, count: u32) -> Self
        requires { count ≤ length (letters_for process mail.now) }
        ensures { result ≡ entry_by process prior (Collected (take count (letters_for process mail.now))) }
    {
        let content = Content::Letters(count, Snapshot::of(mail));
        Entry {
            process,
            prior,
            content,
        }
    }

    /// Makes the entry of a process that did these steps and posted its outbox.
    pub fn posted(process: u16, prior: Option<u64>, block: Block) -> Self
        ensures { result ≡ entry_by process prior (Posted block) }
    {
        Entry {
            process,
            prior,
            content: Content::Block(block),
        }
    }

    /// Makes the entry of a new GVT. It belongs to no process.
    pub fn published() -> Self
        ensures { result ≡ entry_by 0 None Published }
    {
        Entry {
            process: 0,
            prior: None,
            content: Content::Gvt,
        }
    }

    /// Returns the number of steps that the entry represents.
    pub fn count(&self) -> u64
        requires { length (steps_of {M = Message} self.now.process self.now.deed) ≤ 2 ^ 62 }
        ensures { result ≡ length (steps_of {M = Message} self.now.process self.now.deed) }
    {
        count_in(self.process, &self.content)
    }

    /// Returns the step number `at`, from 0, of those that the entry represents, or none behind the last one.
    pub fn step(&self, at: u64) -> Option<Step>
        ensures { result ≡ slice_get (steps_of {M = Message} self.now.process self.now.deed) at }
    {
        step_in(self.process, &self.content, at)
    }
}

/// Returns the number of steps that the entry of a process with this content represents.
fn count_in(process: u16, content: &Content) -> u64
    requires within_mail { IsWithinMail process content.now }
    requires few { length (steps_of {M = Message} process (deed_of process content.now)) ≤ 2 ^ 62 }
    ensures { result ≡ length (steps_of {M = Message} process (deed_of process content.now)) }
{
    match content {
        Content::Letters(count, _mail) => u64::from(*count),
        Content::Block(block) => block.len() as u64 + 1,
        Content::Gvt => 1,
    }
}

/// Returns the step number `at`, from 0, of the entry of a process with this content, or none behind the last one.
fn step_in(process: u16, content: &Content, at: u64) -> Option<Step>
    requires { IsWithinMail process content.now }
    ensures { result ≡ slice_get (steps_of {M = Message} process (deed_of process content.now)) at }
{
    let process = u32::from(process);
    match content {
        Content::Letters(count, _mail) => {
            if at < u64::from(*count) {
                Some(Step::Take { process, place: 0 })
            } else {
                None
            }
        }
        Content::Block(block) => {
            let moves = block.len() as u64;
            if at == moves {
                return Some(Step::Post { process });
            }
            if at > moves {
                return None;
            }
            match block.get(at as usize) {
                Some(moved) => Some(step_of_move(process, moved)),
                None => None,
            }
        }
        Content::Gvt => { if at == 0 { Some(Step::Gvt) } else { None } }
    }
}

/// Returns the step for what a process did alone.
fn step_of_move(process: u32, moved: Move) -> Step
    ensures { result ≡ step_by process moved }
{
    match moved {
        Move::Arrived => Step::Arrive { process },
        Move::Ran => Step::Run { process },
        Move::Committed => Step::Commit { process },
    }
}
