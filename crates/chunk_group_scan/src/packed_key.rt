//! Numbers made of keys, and packed keys: a number followed by a row number.
//!
//! Rows with the same key have the same number. Rows with different keys may have the same number too, so that a run
//! ends where the values of keys differ.

ghost use Rattle.std.specs.Prelude.{◌≡◌, ◌<◌, All, length, map};
ghost use Rattle.sky_row.specs.Keys.{place_in};
ghost use Rattle.table_rules.specs.declared.limits.TheConstants.{ROWS_MOST};

use table_rules::limits::ROWS_MOST;

/// A packed key is a number times this, plus a row number, which is below this.
pub(crate) const PLACES: u64 = ROWS_MOST as u64;

/// How many different numbers packed keys can hold.
const NUMBERS: u64 = 1 << 42;

/// The factor by which a number is multiplied before the value of one more column is added: an odd number of 64 bits.
const STRETCH: u64 = 0x9e37_79b9_7f4a_7c15;

/// Returns the number of a key with one more column, which has this value.
fn mixed(number: u64, value: i64) -> u64 {
    number
        .wrapping_mul(STRETCH)
        .wrapping_add(value.cast_unsigned())
}

/// Mixes the values of a column on the selected rows into the numbers.
pub(crate) fn mix_wide(numbers: &mut [u64], values: &[i64], places: &[u32])
    requires len { length numbers.old ≡ length places.now }
    requires there { All (λ place. place < length values.now) places.now }
    ensures { length numbers.new ≡ length numbers.old }
{
    for j in 0..places.len() {
        numbers[j] = mixed(numbers[j], values[places[j] as usize]);
    }
}

/// Mixes the values of a column of 32 bits into the numbers.
pub(crate) fn mix_narrow(numbers: &mut [u64], values: &[i32], places: &[u32])
    requires len { length numbers.old ≡ length places.now }
    requires there { All (λ place. place < length values.now) places.now }
    ensures { length numbers.new ≡ length numbers.old }
{
    for j in 0..places.len() {
        numbers[j] = mixed(numbers[j], i64::from(values[places[j] as usize]));
    }
}

/// Mixes the values of a column of flags into the numbers.
pub(crate) fn mix_presence(numbers: &mut [u64], values: &[bool], places: &[u32])
    requires len { length numbers.old ≡ length places.now }
    requires there { All (λ place. place < length values.now) places.now }
    ensures { length numbers.new ≡ length numbers.old }
{
    for j in 0..places.len() {
        numbers[j] = mixed(numbers[j], i64::from(values[places[j] as usize]));
    }
}

/// Returns the packed key of a number, whose high bits are lost, and a row number.
fn word_of(number: u64, place: u32) -> u64
    requires { place < ROWS_MOST }
    ensures { place_in result ≡ place }
{
    number % NUMBERS * PLACES + u64::from(place)
}

/// Makes packed keys of the numbers and these row numbers.
pub(crate) fn put_places(numbers: &mut [u64], places: &[u32])
    requires len { length numbers.old ≡ length places.now }
    requires few { All (λ place. place < ROWS_MOST) places.now }
    ensures { map place_in numbers.new ≡ places.now }
{
    for j in 0..places.len() {
        numbers[j] = word_of(numbers[j], places[j]);
    }
}

/// Writes the row numbers of the packed keys to `places`.
pub(crate) fn take_places(words: &[u64], places: &mut [u32])
    requires len { length words.now ≡ length places.old }
    ensures { places.new ≡ map place_in words.now }
{
    for j in 0..words.len() {
        places[j] = (words[j] % PLACES) as u32;
    }
}
