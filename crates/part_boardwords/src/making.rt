// A job before it stands in words.
ghost use Rattle.std.specs.Prelude.{◌≡◌};
ghost use Rattle.spec_plain.specs.Plain.{new_job};

use spec_plain::Job;

// An unsent job. One of 0 points, batch 0 and no due time is what a place not in use holds.
pub fn new_job(points: u32, batch: u32, due: u32) -> Job
    ensures { result ≡ new_job points batch due }
{
    Job {
        points,
        batch,
        sent: false,
        due,
    }
}
