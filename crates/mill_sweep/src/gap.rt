ghost use Rattle.std.specs.Prelude.{◌≡◌, ◌⊎◌, IsTrue, false, ◌+ℤ◌, ◌≤ℤ◌, ◌<ℤ◌};
ghost use Rattle.mill_sweep.specs.Apart.{LieOver, LieUnder, LieApart};

/// The coordinates of two places and of a triangle's corners in one direction, and the distance that
/// is to lie between them, in units.
#[derive(Clone, Copy)]
pub(crate) struct Gap {
    pub distance: i32,
    pub from: i32,
    pub to: i32,
    pub a: i32,
    pub b: i32,
    pub c: i32,
}

impl Gap {
    /// Whether the corners and the places lie at least the distance apart.
    pub(crate) fn is_wide(&self) -> bool
        ensures yes { IsTrue result → LieApart self.now.distance self.now.from self.now.to self.now.a self.now.b self.now.c }
        ensures no { result ≡ false → ¬ LieApart self.now.distance self.now.from self.now.to self.now.a self.now.b self.now.c }
    {
        if self.lies_over() {
            return true;
        }
        self.lies_under()
    }

    /// Whether each corner is at least the distance over both places.
    fn lies_over(&self) -> bool
        ensures yes { IsTrue result → LieOver self.now.distance self.now.from self.now.to self.now.a self.now.b self.now.c }
        ensures no { result ≡ false → ¬ LieOver self.now.distance self.now.from self.now.to self.now.a self.now.b self.now.c }
    {
        if !self.lies_over_end(self.from) {
            return false;
        }
        self.lies_over_end(self.to)
    }

    /// Whether each corner is at least the distance over one place.
    fn lies_over_end(&self, end: i32) -> bool
        ensures a { IsTrue result → (end +ℤ self.now.distance) ≤ℤ self.now.a }
        ensures b { IsTrue result → (end +ℤ self.now.distance) ≤ℤ self.now.b }
        ensures c { IsTrue result → (end +ℤ self.now.distance) ≤ℤ self.now.c }
        ensures no { result ≡ false → (self.now.a <ℤ (end +ℤ self.now.distance)) ⊎ ((self.now.b <ℤ (end +ℤ self.now.distance)) ⊎ (self.now.c <ℤ (end +ℤ self.now.distance))) }
    {
        if !is_clear(end, self.distance, self.a) {
            return false;
        }
        if !is_clear(end, self.distance, self.b) {
            return false;
        }
        is_clear(end, self.distance, self.c)
    }

    /// Whether each corner is at least the distance under both places.
    fn lies_under(&self) -> bool
        ensures yes { IsTrue result → LieUnder self.now.distance self.now.from self.now.to self.now.a self.now.b self.now.c }
        ensures no { result ≡ false → ¬ LieUnder self.now.distance self.now.from self.now.to self.now.a self.now.b self.now.c }
    {
        if !self.lies_under_end(self.from) {
            return false;
        }
        self.lies_under_end(self.to)
    }

    /// Whether each corner is at least the distance under one place.
    fn lies_under_end(&self, end: i32) -> bool
        ensures a { IsTrue result → (self.now.a +ℤ self.now.distance) ≤ℤ end }
        ensures b { IsTrue result → (self.now.b +ℤ self.now.distance) ≤ℤ end }
        ensures c { IsTrue result → (self.now.c +ℤ self.now.distance) ≤ℤ end }
        ensures no { result ≡ false → (end <ℤ (self.now.a +ℤ self.now.distance)) ⊎ ((end <ℤ (self.now.b +ℤ self.now.distance)) ⊎ (end <ℤ (self.now.c +ℤ self.now.distance))) }
    {
        if !is_clear(self.a, self.distance, end) {
            return false;
        }
        if !is_clear(self.b, self.distance, end) {
            return false;
        }
        is_clear(self.c, self.distance, end)
    }
}

/// Whether `end` is at least the distance over `start`.
fn is_clear(start: i32, distance: i32, end: i32) -> bool
    ensures yes { IsTrue result → (start +ℤ distance) ≤ℤ end }
    ensures no { result ≡ false → end <ℤ (start +ℤ distance) }
{
    i64::from(start) + i64::from(distance) <= i64::from(end)
}
