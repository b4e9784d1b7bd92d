/// Why a scan gives no picture.
#[derive(Clone, Copy, PartialEq, Eq)]
pub enum ScanError {
    /// A call on the source failed.
    Fault,
    /// The picture is past the limits of a scan.
    TooMuch,
    /// Memory was wanting.
    Memory,
}
