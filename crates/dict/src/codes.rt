// Values and their places among the distinct ones.
ghost use Rattle.std.specs.Prelude.{◌≡◌, ◌+◌, ◌*◌, ◌<◌, ◌≤◌, map, length, take, nat_lt};
ghost use Rattle.column.specs.Columns.{Sound, cells as cells_of, seen, values};
ghost use Rattle.column.specs.Kinds.{key, number_of};
ghost use Rattle.dict.specs.Dict.{Known, distinct_values, code_row, decoded_cells, place_of};
ghost use Rattle.stats.specs.Laws.{Ascends};

use column::kinds::Kind;
use column::views::View;
use scheme::children::value_at;
use stats::integer::IntegerStats;
use stats::options::GenerateStatsOptions;

// The distinct values, ascending, to the front of `out`; how many they are.
pub fn list_distinct(array: View<'_>, out: &mut [u64], mem: &mut [u64]) -> usize
    requires sound { Sound array }
    requires room { length array.cells.now ≤ length out.old }
    requires spared { 2 * length array.cells.now + 64 ≤ length mem.old }
    ensures front { take result out.new ≡ distinct_values (seen array.entry) }
    ensures few { result ≤ length array.entry.cells.now }
{
    let options = GenerateStatsOptions {
        count_distinct_values: true,
    };
    let stats = IntegerStats::generate_opts(array, options, mem);
    let distinct = stats.distinct_values(mem);
    let count = distinct.len();
    out[0..count].copy_from_slice(distinct);
    count
}

// The place of a value in a list that ascends in the kind's order and has it, by search.
fn search(kind: Kind, distinct: &[u64], value: u64) -> usize
    requires ascends { Ascends (number_of kind) distinct.now }
    requires known { place_of value distinct.now < length distinct.now }
    ensures { result ≡ place_of value distinct.now }
{
    let key = kind.key(value);
    distinct.partition_point(|other| kind.key(*other) < key)
}

// Where a table of guesses has a value's: at its distance from the first.
fn slot(distinct: &[u64], value: u64) -> usize {
    value.wrapping_sub(value_at(distinct, 0)) as usize
}

// Notes where each value stands, as far as the table goes. No clause says what it then holds: a guess is tested before it is used.
fn note_guesses(distinct: &[u64], guesses: &mut [u64]) {
    for (i, value) in distinct.iter().enumerate() {
        let slot = slot(distinct, *value);
        if slot < guesses.len() {
            guesses[slot] = i as u64;
        }
    }
}

// The same place, by a guess where that is right: a search meets a branch at each step.
fn place_of(kind: Kind, distinct: &[u64], guesses: &[u64], value: u64) -> usize
    requires ascends { Ascends (number_of kind) distinct.now }
    requires known { place_of value distinct.now < length distinct.now }
    ensures { result ≡ place_of value distinct.now }
{
    let guess = value_at(guesses, slot(distinct, value)) as usize;
    if guess < distinct.len() && distinct[guess] == value {
        guess
    } else {
        search(kind, distinct, value)
    }
}

// The place of each row's value, 0 under blanks.
pub fn encode(array: View<'_>, distinct: &[u64], guesses: &mut [u64], out: &mut [u64])
    requires sound { Sound array }
    requires ascends { Ascends (number_of array.kind) distinct.now }
    requires known { Known distinct.now (values (seen array)) }
    requires room { length out.old ≡ length array.cells.now }
    ensures { out.new ≡ cells_of (map (code_row distinct.now) (seen array.entry).rows) }
{
    note_guesses(distinct, guesses);
    // By place: no proof knows what is written through an `iter_mut` under `zip`.
    for (i, code) in out.iter_mut().enumerate() {
        *code = if array.is_present(i) {
            place_of(array.kind, distinct, guesses, array.cells[i]) as u64
        } else {
            0
        };
    }
}

// Each code's value, 0 for a code past the values.
pub fn decode(codes: &[u64], distinct: &[u64], out: &mut [u64])
    requires room { length out.old ≡ length codes.now }
    ensures { out.new ≡ decoded_cells distinct.now codes.now }
{
    // By place: no proof knows what is written through an `iter_mut` under `zip`.
    for (i, cell) in out.iter_mut().enumerate() {
        *cell = value_at(distinct, codes[i] as usize);
    }
}
