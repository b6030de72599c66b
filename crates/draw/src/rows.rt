// The shared weights, a row for each peer of the roster.
ghost use Rattle.std.specs.Prelude.{◌≡◌, ℕ, ◌^◌, ◌<◌, length};
ghost use Rattle.draw.specs.Rows.{part, left_by, total, reach, manner, without, all_back, heft};

// A row of the shared weights; `aside` while a draw has it out.
#[derive(Clone, Copy, Debug, PartialEq, Eq)]
pub struct Share {
    pub weight: u64,
    pub aside: bool,
}

// A pick goes by weight, or counts each row left as one. A word drawn says which: closures for the two would be told
// apart by the same match.
#[derive(Clone, Copy, Debug, PartialEq, Eq)]
pub enum By {
    Weight,
    Head,
}

// What the rows left count for together, in either manner.
#[derive(Clone, Copy, Debug, PartialEq, Eq)]
pub struct Left {
    pub weight: u64,
    pub heads: u64,
}

impl Left {
    pub(crate) fn by(self, by: By) -> u64
        ensures { result ≡ left_by by self }
    {
        match by {
            By::Weight => self.weight,
            By::Head => self.heads,
        }
    }
}

// What a row counts for in a pick.
fn part_of(share: Share, by: By) -> u64
    ensures { result ≡ part by share }
{
    if share.aside {
        return 0;
    }
    match by {
        By::Weight => share.weight,
        By::Head => share.weight.min(1),
    }
}

// What the rows left count for together, both in one pass: two sums of a chain would make two.
pub(crate) fn left_of(shares: &[Share]) -> Left
    requires { heft shares.now < 2 ^ 64 }
    ensures weight { result.weight ≡ total By.Weight shares.now }
    ensures heads { result.heads ≡ total By.Head shares.now }
{
    let mut weight: u64 = 0;
    let mut heads: u64 = 0;
    for s in shares {
        weight += part_of(*s, By::Weight);
        heads += part_of(*s, By::Head);
    }
    Left { weight, heads }
}

// The first row whose running sum exceeds `x`: what is left of `x` after the rows before it is less than its part. Not
// by `position`: the clauses do not say what a closure that changes its captures leaves, here what is left.
pub(crate) fn place_of(shares: &[Share], by: By, x: u64) -> usize
    requires { x < total by shares.now }
    ensures value { result ≡ reach by 0 shares.now x }
    ensures within { result < length shares.now }
{
    let mut left = x;
    for (i, s) in shares.iter().enumerate() {
        let part = part_of(*s, by);
        if left < part {
            return i;
        }
        left -= part;
    }
    unreachable!()
}

// By weight under 4.
pub(crate) fn manner_of(word: u64) -> By
    ensures { result ≡ manner word }
{
    if word < 4 { By::Weight } else { By::Head }
}

// Sets the row at a place aside; past the rows nothing changes.
pub(crate) fn set_aside(shares: &mut [Share], place: usize)
    ensures { shares.new ≡ without shares.old place }
{
    if place < shares.len() {
        shares[place].aside = true;
    }
}

// Puts every row back.
pub(crate) fn put_back(shares: &mut [Share])
    ensures { shares.new ≡ all_back shares.old }
{
    for s in shares.iter_mut() {
        s.aside = false;
    }
}
