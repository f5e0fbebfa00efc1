// The hash of a name, made while the name is scanned.
ghost use Rattle.std.specs.Prelude.{◌≡◌, true, ◌≤◌, ◌<◌, length, get_or, take, drop};
ghost use Rattle.text.specs.Bytes.{is_letter};
ghost use Rattle.text.specs.declared.Class.TheVariants.{NameByte};
ghost use Rattle.text.specs.Scan.{is_of, past};
ghost use Rattle.store.specs.Hash.{hash_next, hash_of, buckets, bucket_of};

use super::Name;
use edition::Edition;
use text::scan::is_name_byte;

const HASH_BOUND: u64 = 4294967296;

const HASH_FACTOR: u64 = 37;

// As many buckets as variables.
const BUCKETS: usize = Edition::VARIABLES;

// Above the low digits of a hash.
const HASH_FOLD: usize = 1024;

// The hash of a name with one byte more.
fn hash_next(h: u32, b: u8) -> u32
    ensures { result ≡ hash_next h b }
{
    ((h as u64 * HASH_FACTOR + b as u64) % HASH_BOUND) as u32
}

// The name whose first letter stands at `at`.
pub fn name_at(text: &[u8], at: usize) -> Name
    requires { (at < length text.now) × (is_letter (get_or text.now at 0) ≡ true) }
    ensures { (result.stop ≡ past (is_of NameByte) text.now at) × (result.hash ≡ hash_of (drop at (take result.stop text.now))) }
{
    let mut hash = hash_next(0, text[at]);
    let mut i = at + 1;
    while i < text.len() {
        let b = text[i];
        if is_name_byte(b) {
            hash = hash_next(hash, b);
            i += 1;
        } else {
            return Name { stop: i, hash };
        }
    }
    Name { stop: i, hash }
}

// The bucket of a hash: its high digits folded into its low ones.
pub(crate) fn bucket(hash: u32) -> usize
    ensures { (result ≡ bucket_of hash) × (result < buckets) }
{
    let h = hash as usize;
    (h + h / HASH_FOLD) % BUCKETS
}
