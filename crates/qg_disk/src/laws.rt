// What a disk holds, and what a crash leaves of it.
ghost use Rattle.std.specs.Prelude.{◌≡◌, List};
ghost use Rattle.qg_device.specs.Crash.{Leaves};
ghost use Rattle.qg_device.specs.History.{Event, content};
ghost use Rattle.qg_disk.specs.Crashed.{crashed};
ghost use Rattle.qg_disk.specs.declared.tear.Tear.{Tear};
ghost use Rattle.qg_disk.specs.declared.tear.Tear.TheVariants as tear;

/// A law: what a disk holds is one of the images that a crash now may leave (this project's own).
pub fn leaves_what_it_holds()
    ensures { (events : List Event) → Leaves events (content events) }
{}

/// A law: what a crash leaves that does the same to all that no sync had made sure of is one of the images
/// that a crash then may leave; where it leaves all of it, that is what the disk holds (this project's own).
pub fn crashes_leave_images()
    ensures image { (tear : Tear) (events : List Event) → Leaves events (crashed tear events) }
    ensures whole { (events : List Event) → crashed tear.New events ≡ content events }
{}
