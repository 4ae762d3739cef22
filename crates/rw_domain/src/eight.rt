//! Rows of eight bytes.

ghost use Rattle.std.specs.Prelude.{◌≡◌, ◌<◌, slice_get, slice_set, Some};

/// Eight values, as the bytes of a word of 64 bits, the lowest first.
#[derive(Clone, Copy, Debug, PartialEq, Eq)]
pub struct Eight<T> {
    pub b0: T,
    pub b1: T,
    pub b2: T,
    pub b3: T,
    pub b4: T,
    pub b5: T,
    pub b6: T,
    pub b7: T,
}

impl<T: Copy> Eight<T> {
    ghost use Rattle.rw_domain.specs.Eight.{eight_of};

    /// The value with this number, from 0 to 7.
    pub fn get(&self, i: u8) -> T
        requires { i < 8 }
        ensures { slice_get (eight_of self.now) i ≡ Some result }
    {
        match i {
            0 => self.b0,
            1 => self.b1,
            2 => self.b2,
            3 => self.b3,
            4 => self.b4,
            5 => self.b5,
            6 => self.b6,
            _ => self.b7,
        }
    }

    /// Writes the value with this number, from 0 to 7.
    pub fn set(&mut self, i: u8, v: T)
        requires { i < 8 }
        ensures { eight_of self.new ≡ slice_set (eight_of self.old) i v }
    {
        match i {
            0 => self.b0 = v,
            1 => self.b1 = v,
            2 => self.b2 = v,
            3 => self.b3 = v,
            4 => self.b4 = v,
            5 => self.b5 = v,
            6 => self.b6 = v,
            _ => self.b7 = v,
        }
    }
}
