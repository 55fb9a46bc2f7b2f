// The words and numbers of a line of bytes: where a word ends, whether two are the same, what number one is. Assumes nothing.
#![tactic(auto)]

ghost use Rattle.std.specs.Prelude.{◌≡◌, ◌+◌, ◌<◌, ◌≤◌, ◌==◌, MatchOption, length, drop};
ghost use Rattle.std.specs.List.{position_or_len};
ghost use Rattle.words.specs.Words.{number, same};
ghost use Rattle.words.specs.Read.{word, after, Reads, Bytes};

// How many of these bytes stand before the first space.
fn until_space(bytes: &[u8]) -> usize
    ensures value { result ≡ position_or_len (λ b. b == 32) bytes.now }
    ensures within { result ≤ length bytes.now }
{
    bytes.iter().take_while(|b| **b != b' ').count()
}

// Where the word that begins at `from` ends: at a space, or at the line's end.
pub fn word_end(line: &[u8], from: usize) -> usize
    requires { from ≤ length line.now }
    ensures value { result ≡ from + length (word (drop from line.now)) }
    ensures within { result ≤ length line.now }
{
    from + until_space(&line[from..])
}

// The value of a word, where it is a number of at most 65,535.
#[tactic(auto, using(crate::proofs::Values::value_over))]
fn value(word: &[u8]) -> Option<u16>
    ensures { MatchOption result (65535 < number word.now) (λ n. n ≡ number word.now) }
{
    if word.is_empty() {
        return None;
    }
    let mut sum: u16 = 0;
    for b in word {
        if !b.is_ascii_digit() {
            return None;
        }
        sum = sum.checked_mul(10)?.checked_add(u16::from(*b - b'0'))?;
    }
    Some(sum)
}

// Whether two rows of bytes are the same.
pub fn equal(a: &[u8], b: &[u8]) -> bool
    ensures { result ≡ same a.now b.now }
{
    a == b
}

// The numbers after the word that ends at `from`, put into `table`: how many they are, where each is one; a count, since `Reads` takes so many from the table. No `split` over the spaces: tried, and what stands in the table so far stayed unproved.
pub fn numbers(line: &[u8], from: usize, table: &mut [u16]) -> Option<usize>
    requires from_within { from ≤ length line.now }
    requires short_line { length line.now ≤ 8192 }
    requires numbers_fit { 8192 ≤ length table.old }
    ensures { Reads result table.new (after (drop from line.now)) }
{
    let mut rest = &line[from..];
    let mut count: usize = 0;
    while let Some((_, words)) = rest.split_first() {
        let (word, others) = words.split_at(until_space(words));
        table[count] = value(word)?;
        count += 1;
        rest = others;
    }
    Some(count)
}

// Whether each of these numbers is a byte; they are put at the front of `bytes`. By index: tried with `iter_mut` and `zip`, and of what is written through those a proof knows no byte.
pub fn put_bytes(numbers: &[u16], bytes: &mut [u8]) -> bool
    requires { length numbers.now ≤ length bytes.old }
    ensures { Bytes result numbers.now bytes.new }
{
    for (i, n) in numbers.iter().enumerate() {
        let Ok(byte) = u8::try_from(*n) else {
            return false;
        };
        bytes[i] = byte;
    }
    true
}
