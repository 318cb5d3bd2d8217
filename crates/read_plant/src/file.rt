// A good plant file, one that passed refusals 1 to 4, with its trailer, which is read once.

ghost use Rattle.std.specs.Prelude.{◌≡◌, ◌+◌, ◌*◌, ◌≤◌, ◌<◌, length, IfOk};
ghost use Rattle.base_rulings.specs.declared.Ruling.TheVariants.{Accepted};
ghost use Rattle.base_rulings.specs.Order.{refusal_of};
ghost use Rattle.read_plant.specs.Plant.{plant_ruling, trailer_of, record_start, allocation_count};

use crate::{TRAILER_SIZE, Trailer, is_bad_layout, is_marked, read_records, read_trailer};
use base_rulings::Cause;
use base_words::u32_at;

#[derive(Clone, Copy)]
pub struct Plant<'a> {
    pub bytes: &'a [u8],
    pub trailer: Trailer,
    pub ghost good: { plant_ruling bytes.now ≡ Accepted },
    pub ghost trailed: { trailer ≡ trailer_of bytes.now },
}

impl<'a> Plant<'a> {
    // The first of refusals 1 to 4, or a good plant file of these bytes.
    pub fn read(bytes: &'a [u8]) -> Result<Plant<'a>, Cause>
        ensures ruling { refusal_of result ≡ plant_ruling bytes.now }
        ensures same { IfOk result (λ p. p.bytes.now ≡ bytes.now) }
    {
        let short = bytes.len() < TRAILER_SIZE;
        if short || !is_marked(bytes, bytes.len() - 4) {
            return Err(Cause::Plain(1));
        }
        let trailer = read_trailer(bytes);
        if is_bad_layout(trailer, bytes.len()) {
            return Err(Cause::Plain(2));
        }
        read_records(bytes, trailer)?;
        Ok(Plant { bytes, trailer })
    }

    // Where the record of an action starts.
    pub fn start_of(self, action: u32) -> usize
        requires { action < self.trailer.count }
        ensures { (result ≡ record_start self.entry.bytes.now action)
            × (result + 28 + 12 * allocation_count self.entry.bytes.now result ≤ length self.entry.bytes.now) }
    {
        u32_at(self.bytes, self.trailer.index + 4 * (action as usize)) as usize
    }

    // How many allocations an action has.
    pub fn allocation_count(self, action: u32) -> usize
        requires { action < self.trailer.count }
        ensures { (result ≡ allocation_count self.entry.bytes.now (record_start self.entry.bytes.now action)) × (result ≤ 4) }
    {
        self.bytes[self.start_of(action) + 24] as usize
    }
}
