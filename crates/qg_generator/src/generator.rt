// The lines of the generator, one after the other.
ghost use Rattle.std.specs.Prelude.{◌≡◌, [], ◌∷◌, IfSome, IfNone};
ghost use Rattle.qg_grammar.specs.ScriptText.{IsLineOf, command_text};
ghost use Rattle.qg_generator.specs.GeneratedScript.{generated_script};

use crate::draws::Draws;
use crate::opening::opening_line;
use qg_num::Command;
use std::alloc::Global;
use std::marker::Model;

/// How many lines come before those that are drawn.
const OPENING: u8 = 5;

/// The generator of a seed (this project's own). A contract sees the lines that it has still to give.
#[derive(Drop)]
pub struct Generator {
    alloc: Global,
    opened: u8,
    left: u64,
    draws: Draws,
}

impl Model for Generator {
    ghost use Rattle.std.specs.Prelude.{List, ◌++◌, drop};
    ghost use Rattle.qg_num.specs.declared.command.Command.{Command};
    ghost use Rattle.qg_generator.specs.GeneratedScript.{opening_lines, lines_drawn};

    ghost Value = { List Command };

    ghost view = { λ g. drop g.opened opening_lines ++ lines_drawn g.left g.draws };
}

impl Generator {
    /// The generator of a seed that is to draw so many lines. It takes no memory.
    pub fn new(alloc: Global, seed: u64, count: u64) -> Generator
        ensures { result ≡ generated_script seed count }
    {
        Generator {
            alloc,
            opened: 0,
            left: count,
            draws: Draws::new(seed),
        }
    }

    /// The next line's command; `None` exactly where none is left. It takes no memory.
    pub fn next(&mut self) -> Option<Command>
        ensures given { IfSome result (λ command. self.old ≡ command ∷ self.new) }
        ensures line { IfSome result (λ command. IsLineOf (command_text command) command) }
        ensures none { IfNone result (self.old ≡ []) }
        ensures over { IfNone result (self.new ≡ []) }
    {
        if self.opened < OPENING {
            let command = opening_line(self.opened);
            self.opened += 1;
            return Some(command);
        }
        if self.left == 0 {
            return None;
        }
        let command = self.draws.line(self.alloc);
        self.left -= 1;
        Some(command)
    }
}
