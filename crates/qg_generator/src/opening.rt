// The five lines that come first.
ghost use Rattle.std.specs.Prelude.{◌≡◌, ◌+◌, ◌*◌, ◌^◌, ◌<◌, ◌∷◌, drop};
ghost use Rattle.qg_grammar.specs.ScriptText.{IsLineOf, command_text};
ghost use Rattle.qg_generator.specs.GeneratedScript.{opening_lines};

use qg_num::{Command, GroupId};

/// How far apart the numbers of two levels lie.
const LEVEL: u64 = 1 << 48;

/// The group of a level and an id.
pub(crate) fn group(level: u64, id: u64) -> GroupId
    requires level { level < 2 ^ 16 }
    requires id { id < 2 ^ 48 }
    ensures { result ≡ level * 2 ^ 48 + id }
{
    GroupId::from_number(level * LEVEL + id)
}

/// The line at an index.
pub(crate) fn opening_line(index: u8) -> Command
    requires { index < 5 }
    ensures next { drop index opening_lines ≡ result ∷ drop (index + 1) opening_lines }
    ensures line { IsLineOf (command_text result) result }
{
    match index {
        0 => Command::GroupCreate { group: group(1, 1) },
        1 => Command::GroupCreate { group: group(1, 2) },
        2 => Command::GroupCreate { group: group(2, 1) },
        3 => Command::Assign {
            member: group(1, 1),
            parent: group(2, 1),
        },
        _ => Command::Assign {
            member: group(1, 2),
            parent: group(2, 1),
        },
    }
}
