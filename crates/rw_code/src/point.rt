/// A point of the file by its address, or the place past the function that starts at an address.
#[derive(Clone, Copy, Debug, PartialEq, Eq)]
pub enum FilePoint {
    At(u64),
    Past(u64),
}
