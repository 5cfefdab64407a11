//! Which way round an arc goes, and in which plane.
ghost use Rattle.std.specs.Prelude.{◌≡◌};
ghost use Rattle.mill_control.specs.Planes.{first_of, second_of, third_of};
ghost use Rattle.mill_control.specs.Planes.{x_of, y_of, z_of};

/// Which way round an arc goes (NISTIR 6556, 3.5.3), as it is seen from where the plane's third
/// axis leads: counterclockwise from the first axis to the second.
#[derive(Clone, Copy)]
pub enum Turn {
    /// `G2`
    Clockwise,
    /// `G3`
    Counterclockwise,
}

/// The plane of an arc (NISTIR 6556, 3.5.4), by its first and its second axis. A helix goes along
/// the third.
#[derive(Clone, Copy)]
pub enum Plane {
    /// `G17`: the first axis is X, the second Y, the third Z.
    Xy,
    /// `G18`: Z, X and Y.
    Zx,
    /// `G19`: Y, Z and X.
    Yz,
}

impl Plane {
    /// What the first axis has, of what X, Y and Z have.
    pub fn first<T: Copy>(self, x: T, y: T, z: T) -> T
        ensures { result ≡ first_of self x y z }
    {
        match self {
            Plane::Xy => x,
            Plane::Zx => z,
            Plane::Yz => y,
        }
    }

    /// What the second axis has.
    pub fn second<T: Copy>(self, x: T, y: T, z: T) -> T
        ensures { result ≡ second_of self x y z }
    {
        match self {
            Plane::Xy => y,
            Plane::Zx => x,
            Plane::Yz => z,
        }
    }

    /// What the third axis has.
    pub fn third<T: Copy>(self, x: T, y: T, z: T) -> T
        ensures { result ≡ third_of self x y z }
    {
        match self {
            Plane::Xy => z,
            Plane::Zx => y,
            Plane::Yz => x,
        }
    }

    /// What X has, of what the three axes have.
    pub fn x<T: Copy>(self, first: T, second: T, third: T) -> T
        ensures { result ≡ x_of self first second third }
    {
        match self {
            Plane::Xy => first,
            Plane::Zx => second,
            Plane::Yz => third,
        }
    }

    /// What Y has.
    pub fn y<T: Copy>(self, first: T, second: T, third: T) -> T
        ensures { result ≡ y_of self first second third }
    {
        match self {
            Plane::Xy => second,
            Plane::Zx => third,
            Plane::Yz => first,
        }
    }

    /// What Z has.
    pub fn z<T: Copy>(self, first: T, second: T, third: T) -> T
        ensures { result ≡ z_of self first second third }
    {
        match self {
            Plane::Xy => third,
            Plane::Zx => first,
            Plane::Yz => second,
        }
    }
}
