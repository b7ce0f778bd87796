// A set of the 64 cells of one node, as the bits of a word: bit c stands for cell c.
ghost use Rattle.std.specs.Prelude.{◌≡◌, ℕ, false, not, ◌&&◌, ◌||◌, nat_le, nat_lt};
ghost use Rattle.model.specs.Tables.{put, one, total, first};
ghost use Rattle.cell_set.specs.Sets.{has};

#[derive(Clone, Copy)]
pub struct CellSet {
    word: u64,
}

impl CellSet {
    // No cell.
    pub fn none() -> CellSet
        ensures { (c : ℕ) → has result c ≡ false }
    {
        CellSet { word: 0 }
    }

    // All 64 cells.
    #[tactic(auto, using(crate::proofs::Bits::bit_of_max))]
    pub fn all() -> CellSet
        ensures { (c : ℕ) → has result c ≡ nat_lt c 64 }
    {
        CellSet { word: u64::MAX }
    }

    pub fn has(self, cell: u8) -> bool
        ensures { result ≡ has self cell }
    {
        cell < 64 && self.word >> cell & 1 == 1
    }

    // A number that is no cell's changes nothing.
    #[tactic(auto, using(crate::proofs::Bits::bit_when_set))]
    pub fn insert(&mut self, cell: u8)
        ensures { (c : ℕ) → has self.new c ≡ put (has self.old) cell (nat_lt cell 64) c }
    {
        if cell < 64 {
            self.word |= 1 << cell;
        }
    }

    #[tactic(auto, using(crate::proofs::Bits::bit_when_cleared))]
    pub fn remove(&mut self, cell: u8)
        ensures { (c : ℕ) → has self.new c ≡ put (has self.old) cell false c }
    {
        if cell < 64 {
            self.word &= !(1 << cell);
        }
    }

    // The cells of either set.
    #[tactic(auto, using(std::proofs::lemmas::Nat::Bits::bit_at_or))]
    pub fn union(self, other: CellSet) -> CellSet
        ensures { (c : ℕ) → has result c ≡ (has self c || has other c) }
    {
        CellSet {
            word: self.word | other.word,
        }
    }

    // The cells of this set that the other lacks.
    #[tactic(auto, using(crate::proofs::Bits::bit_of_difference))]
    pub fn minus(self, other: CellSet) -> CellSet
        ensures { (c : ℕ) → has result c ≡ (has self c && not (has other c)) }
    {
        CellSet {
            word: self.word & !other.word,
        }
    }

    // The cells that it lacks.
    pub fn others(self) -> CellSet
        ensures { (c : ℕ) → has result c ≡ (nat_lt c 64 && not (has self c)) }
    {
        CellSet::all().minus(self)
    }

    // How many cells it has.
    #[tactic(auto, using(crate::proofs::Counts::ones_counted))]
    pub fn count(self) -> u8
        ensures { result ≡ total 64 (λ c. one (has self c)) }
    {
        self.word.count_ones() as u8
    }

    // Its lowest cell.
    pub fn lowest(self) -> Option<u8>
        ensures { result ≡ first 64 (has self) }
    {
        self.lowest_from(0)
    }

    // Its lowest cell that is not below `from`.
    #[tactic(auto, using(crate::proofs::Lowest::lowest_is, model::proofs::Firsts::first_none))]
    pub fn lowest_from(self, from: u8) -> Option<u8>
        ensures { result ≡ first 64 (λ c. nat_le from c && has self c) }
    {
        let above = self.word.checked_shr(from.into())?;
        (above != 0).then(|| from + above.trailing_zeros() as u8)
    }
}
