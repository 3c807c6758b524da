use crate::space::Space;
use operations::Status;

/// A program's place: what it refers to, and where it is.
// The core is passed beside it. A struct that borrows both would be no plainer: each of its functions would also have to
// promise that it still borrows these two.
#[derive(Drop, PartialEq, Eq, Debug)]
pub struct Place {
    pub space: Space,
    pub status: Status,
}
