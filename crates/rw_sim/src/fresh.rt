ghost use Rattle.std.specs.Prelude.{◌≡◌, ◌≤◌, ◌+◌, ◌*◌, ◌^◌, ◌++◌, ◌∷◌, [], ℕ, List};

/// Where the first region lies that comes during a run over numbers.
const FIRST_BASE: u64 = 1 << 46;

/// The regions that came so far during a run: how many bytes they have together, and where the next one lies over numbers.
/// They have at most 67,108,864 bytes, and the next one lies below 2^47.
#[derive(Clone, Copy)]
pub struct Fresh {
    pub(crate) bytes: u64,
    pub(crate) base: u64,
    ghost few: { bytes ≤ 67108864 },
    ghost near: { base ≤ 2 ^ 46 + 32 * bytes },
}

impl Fresh {
    ghost use Rattle.rw_sim.specs.FreshRegions.{Counts};

    /// No region so far.
    pub fn new() -> Fresh
        ensures { Counts result [] }
    {
        Fresh {
            bytes: 0,
            base: FIRST_BASE,
        }
    }

    /// How many bytes the regions have together.
    pub fn bytes(&self) -> u64
        ensures { result ≡ self.now.bytes }
    {
        self.bytes
    }

    /// Where the next region lies over numbers: at the next multiple of 16 that leaves 16 bytes behind the one before.
    pub fn base(&self) -> u64
        ensures { result ≡ self.now.base }
    {
        self.base
    }

    /// One region more, of a size in bytes.
    pub fn with(self, size: u64) -> Fresh
        requires some { 1 ≤ size }
        requires few { self.bytes + size ≤ 67108864 }
        ensures bytes { result.bytes ≡ self.bytes + size }
        ensures counts { (sizes : List ℕ) → Counts self sizes → Counts result (sizes ++ size ∷ []) }
    {
        Fresh {
            bytes: self.bytes + size,
            base: (self.base + size + 16).next_multiple_of(16),
        }
    }
}
