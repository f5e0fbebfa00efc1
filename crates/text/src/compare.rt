// Comparisons of texts.
ghost use Rattle.std.specs.Prelude.{◌≡◌, ◌+◌, ◌≤◌, length, take, drop};
ghost use Rattle.text.specs.Bytes.{same};
ghost use Rattle.text.specs.Scan.{same_at};

// The bytes of a block.
const BLOCK: usize = 8;

// Whether the 2, 4 or 8 bytes at `a` of the file are those at `b` of the text: all are compared, with no branch.
// The compiler makes one comparison of it.
fn same2(file: &[u8], a: usize, text: &[u8], b: usize) -> bool
    requires { (a + 2 ≤ length file.now) × (b + 2 ≤ length text.now) }
    ensures { result ≡ same_at file.now a text.now b 2 }
{
    let next = a + 1;
    let beside = b + 1;
    (file[a] == text[b]) & (file[next] == text[beside])
}

fn same4(file: &[u8], a: usize, text: &[u8], b: usize) -> bool
    requires { (a + 4 ≤ length file.now) × (b + 4 ≤ length text.now) }
    ensures { result ≡ same_at file.now a text.now b 4 }
{
    same2(file, a, text, b) & same2(file, a + 2, text, b + 2)
}

fn same8(file: &[u8], a: usize, text: &[u8], b: usize) -> bool
    requires { (a + 8 ≤ length file.now) × (b + 8 ≤ length text.now) }
    ensures { result ≡ same_at file.now a text.now b 8 }
{
    same4(file, a, text, b) & same4(file, a + 4, text, b + 4)
}

// Whether the bytes from `at` to the end, as many as `len`, are those of `file` at `start`: one by one.
fn same_rest(file: &[u8], start: usize, len: usize, text: &[u8], at: usize) -> bool
    requires { (start + len ≤ length file.now) × (at + len ≡ length text.now) }
    ensures { result ≡ same (take len (drop start file.now)) (drop at text.now) }
{
    let mut i = 0;
    while i < len {
        if file[start + i] != text[at + i] {
            return false;
        }
        i += 1;
    }
    true
}

// Whether the bytes from `at` to the end are the `len` bytes of `file` at `start`: the lengths first, then block by block.
pub fn same_at(file: &[u8], start: usize, len: usize, text: &[u8], at: usize) -> bool
    requires { (start + len ≤ length file.now) × (at ≤ length text.now) }
    ensures { result ≡ same (take len (drop start file.now)) (drop at text.now) }
{
    if text.len() - at != len {
        return false;
    }
    let mut i = 0;
    while BLOCK <= len - i {
        if same8(file, start + i, text, at + i) {
            i += BLOCK;
        } else {
            return false;
        }
    }
    same_rest(file, start + i, len - i, text, at + i)
}

// Whether the bytes from `at` to the end are a word.
pub fn is_word(text: &[u8], at: usize, word: &[u8]) -> bool
    requires { at ≤ length text.now }
    ensures { result ≡ same word.now (drop at text.now) }
{
    same_at(word, 0, word.len(), text, at)
}
