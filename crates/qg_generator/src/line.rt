// The lines that are drawn.
ghost use Rattle.std.specs.Prelude.{◌≡◌};
ghost use Rattle.qg_generator.specs.GeneratedScript.{write_drawn, clone_drawn, truncate_drawn, unlink_drawn};
ghost use Rattle.qg_generator.specs.GeneratedScript.{snap_drawn, delete_drawn, assign_drawn, limit_drawn, line_drawn};

use crate::draws::Draws;
use crate::opening::group;
use qg_num::{Command, GroupId, GroupList, RootId, Which};
use std::alloc::Global;

/// How many bytes limits are multiples of.
const LIMIT_STEP: u64 = 65536;

impl Draws {
    // The words of `write`.
    #[tactic(auto, unfolding(crate::specs::GeneratedScript::write_drawn))]
    fn write(&mut self) -> Command
        ensures { write_drawn self.old ≡ record { command = result; behind = self.new } }
    {
        let sub = self.sub();
        let ino = self.ino();
        let off = self.position();
        let len = self.length();
        Command::Write { sub, ino, off, len }
    }

    // The words of `clone`.
    #[tactic(auto, unfolding(crate::specs::GeneratedScript::clone_drawn))]
    fn clone_range(&mut self) -> Command
        ensures { clone_drawn self.old ≡ record { command = result; behind = self.new } }
    {
        let sub = self.sub();
        let ino = self.ino();
        let off = self.position();
        let len = self.length();
        let to_sub = self.sub();
        let to_ino = self.ino();
        let to_off = self.position();
        Command::Clone {
            sub,
            ino,
            off,
            len,
            to_sub,
            to_ino,
            to_off,
        }
    }

    // The words of `truncate`.
    #[tactic(auto, unfolding(crate::specs::GeneratedScript::truncate_drawn))]
    fn truncate(&mut self) -> Command
        ensures { truncate_drawn self.old ≡ record { command = result; behind = self.new } }
    {
        let sub = self.sub();
        let ino = self.ino();
        let size = self.position();
        Command::Truncate { sub, ino, size }
    }

    // The words of `unlink`.
    #[tactic(auto, unfolding(crate::specs::GeneratedScript::unlink_drawn))]
    fn unlink(&mut self) -> Command
        ensures { unlink_drawn self.old ≡ record { command = result; behind = self.new } }
    {
        let sub = self.sub();
        let ino = self.ino();
        Command::Unlink { sub, ino }
    }

    // The words of `snap`.
    #[tactic(auto, unfolding(crate::specs::GeneratedScript::snap_drawn))]
    fn snap(&mut self, alloc: Global) -> Command
        ensures { snap_drawn self.old ≡ record { command = result; behind = self.new } }
    {
        let sub = self.sub();
        let groups = GroupList::new(alloc);
        Command::Snap { sub, groups }
    }

    // The words of `delete`.
    #[tactic(auto, unfolding(crate::specs::GeneratedScript::delete_drawn))]
    fn delete(&mut self) -> Command
        ensures { delete_drawn self.old ≡ record { command = result; behind = self.new } }
    {
        let drawn = self.below(256);
        let sub = RootId::new(256 + drawn);
        Command::Delete { sub }
    }

    // The words of `assign`.
    #[tactic(auto, unfolding(crate::specs::GeneratedScript::assign_drawn))]
    fn assign(&mut self) -> Command
        ensures { assign_drawn self.old ≡ record { command = result; behind = self.new } }
    {
        let sub = self.sub();
        let drawn = self.below(2);
        Command::Assign {
            member: GroupId::from_number(sub.value()),
            parent: group(1, 1 + drawn),
        }
    }

    // The words of `limit`.
    #[tactic(auto, unfolding(crate::specs::GeneratedScript::limit_drawn))]
    fn limit(&mut self) -> Command
        ensures { limit_drawn self.old ≡ record { command = result; behind = self.new } }
    {
        let sub = self.sub();
        let drawn = self.below(256);
        Command::Limit {
            group: GroupId::from_number(sub.value()),
            which: Which::Rfer,
            max: Some(LIMIT_STEP * (1 + drawn)),
        }
    }

    /// One line: what kind it is, then its words.
    pub(crate) fn line(&mut self, alloc: Global) -> Command
        ensures { line_drawn self.old ≡ record { command = result; behind = self.new } }
    {
        match self.below(16) {
            0..=6 => self.write(),
            7 | 8 => self.clone_range(),
            9 => self.truncate(),
            10 => self.unlink(),
            11 => self.snap(alloc),
            12 => self.delete(),
            13 => self.assign(),
            14 => self.limit(),
            _ => Command::Commit,
        }
    }
}
