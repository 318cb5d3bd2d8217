// The jobs with one more, with the first of them sent, or without the oldest; or the same jobs at another clock. A job that stays where it is
// is not written again: its mark is 0 or 1, and so its words are those that writing it would give. Every place not in use gets 0.
ghost use Rattle.std.specs.Prelude.{true, ◌≡◌, [], ◌∷◌, ◌++◌, ◌≤◌, ◌<◌, length, drop};
ghost use Rattle.spec_plain.specs.Limits.{most_jobs};
ghost use Rattle.spec_plain.specs.Plain.{new_job, sent_up_to};
ghost use Rattle.part_lines.specs.ArrayLists.{jobs_of, jobs_from};
ghost use Rattle.part_boardwords.specs.Layout.{clock_at, count_at, cells_at};
ghost use Rattle.part_boardwords.specs.Words.{word_in, held_jobs, all_marked};
ghost use Rattle.part_jobwords.specs.Fronted.{fronted};
ghost use Rattle.part_jobwords.specs.Listed.{Listed};

use part_boardwords::{clear_jobs, layout, move_jobs_down, new_job, write_job, write_sent};

// Another clock. The jobs stay, with 0 in every place not in use.
pub fn write_clock(w: &mut [u32], clock: u32)
    requires { (cells_at ≤ length w.old) × (word_in w.old count_at ≤ most_jobs) × (all_marked (word_in w.old) ≡ true) }
    ensures { w.new ≡ fronted w.old clock (jobs_from (jobs_of (held_jobs (word_in w.old)))) }
{
    let count = w[layout::COUNT_AT] as usize;
    w[layout::CLOCK_AT] = clock;
    clear_jobs(w, count);
}

// The jobs with one more, the newest and unsent.
pub fn add_job(w: &mut [u32], points: u32, batch: u32, due: u32)
    requires { (cells_at ≤ length w.old) × (word_in w.old count_at < most_jobs) × (all_marked (word_in w.old) ≡ true) }
    ensures { w.new ≡ fronted w.old (word_in w.old clock_at)
        (jobs_from (jobs_of (held_jobs (word_in w.old)) ++ (new_job points batch due ∷ []))) }
{
    let count = w[layout::COUNT_AT] as usize;
    let next = count + 1;
    write_job(w, count, new_job(points, batch, due));
    w[layout::COUNT_AT] = next as u32;
    clear_jobs(w, next);
}

// The mark of each of the first n jobs is 1.
fn set_marks(w: &mut [u32], n: usize)
    requires { (cells_at ≤ length w.old) × (n ≤ word_in w.old count_at) × (word_in w.old count_at ≤ most_jobs) × (all_marked (word_in w.old) ≡ true) }
    ensures { Listed w.old w.new (word_in w.old clock_at) (sent_up_to n (jobs_of (held_jobs (word_in w.old)))) }
{
    for k in 0..n {
        write_sent(w, k);
    }
}

// The jobs with the first n of them sent.
pub fn mark_sent(w: &mut [u32], n: usize)
    requires { (cells_at ≤ length w.old) × (n ≤ word_in w.old count_at) × (word_in w.old count_at ≤ most_jobs) × (all_marked (word_in w.old) ≡ true) }
    ensures { w.new ≡ fronted w.old (word_in w.old clock_at)
        (jobs_from (sent_up_to n (jobs_of (held_jobs (word_in w.old))))) }
{
    let count = w[layout::COUNT_AT] as usize;
    set_marks(w, n);
    clear_jobs(w, count);
}

// The jobs without the oldest.
pub fn drop_oldest(w: &mut [u32])
    requires { (cells_at ≤ length w.old) × (1 ≤ word_in w.old count_at) × (word_in w.old count_at ≤ most_jobs) × (all_marked (word_in w.old) ≡ true) }
    ensures { w.new ≡ fronted w.old (word_in w.old clock_at)
        (jobs_from (drop 1 (jobs_of (held_jobs (word_in w.old))))) }
{
    let left = w[layout::COUNT_AT] as usize - 1;
    move_jobs_down(w, left);
    w[layout::COUNT_AT] = left as u32;
    clear_jobs(w, left);
}
