// The Ascon permutation, bit-sliced on five 64-bit words: one round, the run of twelve, and those of the first and the last eight and six.
#![tactic(auto)]

ghost use Rattle.std.specs.Prelude.{◌≡◌, ◌≤◌};
ghost use Rattle.std.proofs.Math.Seq.{slice};
ghost use Rattle.permutation.specs.Round.{substitute, diffuse, round};
ghost use Rattle.permutation.specs.Runs.{constants, rounds, permute, permute_words};

// The five words of the state.
#[derive(Clone, Copy, PartialEq, Eq)]
pub struct State {
    pub x0: u64,
    pub x1: u64,
    pub x2: u64,
    pub x3: u64,
    pub x4: u64,
}

// The runs that the cipher makes, each named by the constants that it takes.
#[derive(Clone, Copy, PartialEq, Eq)]
pub enum Run {
    Twelve,
    FirstEight,
    FirstSix,
    LastEight,
    LastSix,
}

// The state after the substitution of its 64 columns.
fn substituted(s: State) -> State
    ensures { result ≡ substitute s }
{
    let a0 = s.x0 ^ s.x4;
    let a1 = s.x1;
    let a2 = s.x2 ^ s.x1;
    let a3 = s.x3;
    let a4 = s.x4 ^ s.x3;
    let b0 = a0 ^ (!a1 & a2);
    let b1 = a1 ^ (!a2 & a3);
    let b2 = a2 ^ (!a3 & a4);
    let b3 = a3 ^ (!a4 & a0);
    let b4 = a4 ^ (!a0 & a1);
    State {
        x0: b0 ^ b4,
        x1: b1 ^ b0,
        x2: !b2,
        x3: b3 ^ b2,
        x4: b4,
    }
}

// The state after the linear diffusion of each word.
fn diffused(s: State) -> State
    ensures { result ≡ diffuse s }
{
    State {
        x0: s.x0 ^ s.x0.rotate_right(19) ^ s.x0.rotate_right(28),
        x1: s.x1 ^ s.x1.rotate_right(61) ^ s.x1.rotate_right(39),
        x2: s.x2 ^ s.x2.rotate_right(1) ^ s.x2.rotate_right(6),
        x3: s.x3 ^ s.x3.rotate_right(10) ^ s.x3.rotate_right(17),
        x4: s.x4 ^ s.x4.rotate_right(7) ^ s.x4.rotate_right(41),
    }
}

// The state after one round with the constant c.
#[tactic(auto, unfolding(crate::specs::Round::add_constant, crate::specs::Round::round))]
pub fn rounded(s: State, c: u64) -> State
    ensures { result ≡ round c s }
{
    diffused(substituted(State { x2: s.x2 ^ c, ..s }))
}

// The state after the rounds of Table 2 from `first` on, up to `end`.
fn ran(s: State, first: u64, end: u64) -> State
    requires { (first ≤ end) × (end ≤ 12) }
    ensures { result ≡ rounds (slice first end constants) s }
{
    let mut t = s;
    for i in first..end {
        t = rounded(t, 0xf0 - 0x0f * i);
    }
    t
}

// The state after a run.
#[tactic(auto, unfolding(crate::specs::Runs::permute, crate::specs::Runs::constants_of, crate::specs::Runs::constants))]
pub fn permuted(s: State, run: Run) -> State
    ensures { result ≡ permute run s }
{
    match run {
        Run::Twelve => ran(s, 0, 12),
        Run::FirstEight => ran(s, 0, 8),
        Run::FirstSix => ran(s, 0, 6),
        Run::LastEight => ran(s, 4, 12),
        Run::LastSix => ran(s, 6, 12),
    }
}

// Runs on five words where they lie.
#[tactic(auto, unfolding(crate::specs::Runs::permute_words))]
pub fn permute_words(w: &mut [u64; 5], run: Run)
    ensures { w.new ≡ permute_words run w.old }
{
    let [x0, x1, x2, x3, x4] = *w;
    let t = permuted(State { x0, x1, x2, x3, x4 }, run);
    *w = [t.x0, t.x1, t.x2, t.x3, t.x4];
}
