// The fields of a record, as parts of the caller's slice.
#![tactic(auto)]

ghost use Rattle.std.specs.Prelude.{true, ◌≡◌, ◌+◌, ◌^◌, ◌≤◌, ◌<◌, length, get_or};
ghost use Rattle.fields.specs.Forms.{letter};
ghost use Rattle.text.specs.Part.{Lies};
ghost use Rattle.fields.specs.Fields.{semicolons_from, is_whole, Extended, stops_of, is_whole_index, empty_place};
ghost use Rattle.fields.specs.Fields.{place_in, bytes_at, field_by, field_place, field_of};

// The bytes of a record that are searched for semicolons at once.
const BLOCK_SIZE: usize = 16;

// Where a part lies in a record.
#[derive(Clone, Copy)]
pub struct Place {
    pub start: usize,
    pub length: usize,
}

// Puts the places of the semicolons of w, a part of a record that lies at a place, behind the places found; 39 where they are too many.
// As it is: 39 for too many is the count that Extended of specs/ goes on with, and the wrong builds short, too_many, early_block change it.
fn extend(stops: &mut [usize; 39], found: usize, w: &[u8], at: usize) -> usize
    requires { (length stops.old ≡ 39) × (found ≤ 38) × (at + length w.now < 2 ^ 64) }
    ensures { Extended stops.old found (semicolons_from at w.now) stops.new result }
{
    let mut count = found;
    for (i, b) in w.iter().enumerate() {
        if *b == b';' {
            if count == 38 {
                return 39;
            }
            stops[count] = at + i;
            count += 1;
        }
    }
    count
}

// Makes the index of a record with 38 semicolons, in one pass, and says whether it has so many. It goes block by block: a
// loop over a count that is known is compiled to straight steps. Never inlined: its callers would then grow too large to be inlined themselves.
#[inline(never)]
fn fill(stops: &mut [usize; 39], record: &[u8]) -> bool
    requires { length stops.old ≡ 39 }
    ensures { (result ≡ is_whole «record».now) × (result ≡ true → stops.new ≡ stops_of «record».now) }
{
    let (blocks, rest) = record.as_chunks::<BLOCK_SIZE>();
    let mut found: usize = 0;
    for (k, block) in blocks.iter().enumerate() {
        found = extend(stops, found, block, k * BLOCK_SIZE);
        if 38 < found {
            return false;
        }
    }
    found = extend(stops, found, rest, blocks.len() * BLOCK_SIZE);
    if found != 38 {
        return false;
    }
    stops[38] = record.len();
    true
}

// The empty part at the record's start.
fn empty_place() -> Place
    ensures { result ≡ empty_place }
{
    Place {
        start: 0,
        length: 0,
    }
}

// Where field n lies by an index, in a record of the given size; the empty part where the index doesn't say.
pub fn place_of(size: usize, stops: &[usize; 39], n: usize) -> Place
    ensures { result ≡ place_in size stops.now n }
{
    if n < 1 {
        return empty_place();
    }
    if 39 < n {
        return empty_place();
    }
    let end = stops[n - 1];
    if size < end {
        return empty_place();
    }
    if n == 1 {
        return Place {
            start: 0,
            length: end,
        };
    }
    let before = stops[n - 2];
    if before < end {
        Place {
            start: before + 1,
            length: end - (before + 1),
        }
    } else {
        empty_place()
    }
}

// Where field n of a record lies; the empty part at its start for another number, or where it hasn't 38 semicolons.
pub fn field_place(record: &[u8], n: usize) -> Place
    ensures { result ≡ field_place «record».now n }
{
    let mut stops = [0usize; 39];
    if fill(&mut stops, record) {
        return place_of(record.len(), &stops, n);
    }
    empty_place()
}

// What lies at a place of a record.
fn cut(record: &[u8], p: Place) -> &[u8]
    requires { p.start + p.length ≤ length «record».now }
    ensures { Lies «record».entry p.start (bytes_at «record».now p) result }
{
    let start = p.start;
    let end = start + p.length;
    &record[start..end]
}

// A record with its index: where each of its fields ends.
#[derive(Drop)]
pub struct Record<'a> {
    pub bytes: &'a [u8],
    pub stops: [usize; 39],
}

impl<'a> Record<'a> {
    // The record of these bytes, looked over once; all of its index is 0 without 38 semicolons, as with fewer bytes. Always inlined, so that the index is
    // not copied from function to function.
    #[inline(always)]
    pub fn of(bytes: &'a [u8]) -> Record<'a>
        ensures lent { result.bytes ≡ bytes.entry }
        ensures index { result.stops ≡ stops_of bytes.now }
    {
        let none = [0; 39];
        if bytes.len() < 38 {
            return Record { bytes, stops: none };
        }
        let mut record = Record { bytes, stops: none };
        if !fill(&mut record.stops, bytes) {
            record.stops = none;
        }
        record
    }

    // Whether it has 38 semicolons, by its index.
    pub fn is_whole(&self) -> bool
        ensures { result ≡ is_whole_index self.now.stops }
    {
        0 < self.stops[38]
    }

    // Where field n lies by the index; the empty part where the index doesn't say.
    pub fn place(&self, n: usize) -> Place
        ensures { result ≡ place_in (length self.now.bytes.now) self.now.stops n }
    {
        place_of(self.bytes.len(), &self.stops, n)
    }

    // Field n by the index: that part of the record.
    pub fn field(&self, n: usize) -> &'a [u8]
        ensures { Lies self.now.bytes (place_in (length self.now.bytes.now) self.now.stops n).start
            (field_by self.now.bytes.now self.now.stops n) result }
    {
        cut(self.bytes, self.place(n))
    }
}

// The field view: field n of the record, the part between its semicolons; the empty part at the record's start for another number, or where it
// hasn't 38 semicolons.
pub fn field(record: &[u8], n: usize) -> &[u8]
    ensures { Lies «record».entry (field_place «record».now n).start (field_of «record».now n) result }
{
    cut(record, field_place(record, n))
}

// The byte of a field of one byte; 0 for any other field.
// As it is: 0 for none, here and below, since `letter` of specs/, on which each group's tests are defined, has it so.
#[tactic(auto, using(crate::proofs::FormLaws::letter_one, crate::proofs::FormLaws::letter_other))]
pub fn letter_of(s: &[u8]) -> u8
    ensures { result ≡ letter s.now }
{
    match s {
        [letter] => *letter,
        _ => 0,
    }
}

// The first byte of a field; 0 for a blank one.
pub fn first_byte(s: &[u8]) -> u8
    ensures { result ≡ get_or s.now 0 0 }
{
    s.first().copied().unwrap_or(0)
}
