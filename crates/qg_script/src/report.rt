// What is said of a sound image, and of a run of the generator's lines.
ghost use Rattle.std.specs.Prelude.{◌≡◌};
ghost use Rattle.qg_script.specs.Added.{Adds};
ghost use Rattle.qg_script.specs.ReportText.{sound_text, summary_text};

use crate::Text;
use crate::words::write_number;
use qg_num::{Generation, NoMemory};

/// Adds the line that says that an image is sound, with its generation (this project's own).
pub fn write_sound(generation: Generation, text: &mut Text) -> Result<(), NoMemory>
    ensures { Adds result text.old text.new (sound_text generation) }
{
    text.add(b"sound")?;
    write_number(generation.value(), text)?;
    text.add(b"\n")
}

/// Adds the line that says how many of the generator's lines were asked for, and of all its lines how many were done
/// and how many refused (this project's own).
pub fn write_summary(count: u64, done: u64, refused: u64, text: &mut Text) -> Result<(), NoMemory>
    ensures { Adds result text.old text.new (summary_text count done refused) }
{
    text.add(b"gen")?;
    write_number(count, text)?;
    write_number(done, text)?;
    write_number(refused, text)?;
    text.add(b"\n")
}
