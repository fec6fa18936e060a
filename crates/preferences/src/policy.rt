/// Which instances of a package are tried first.
#[derive(Clone, Copy, Debug, PartialEq, Eq)]
pub enum Policy {
    /// The later version, and then installed before source.
    Latest,
    /// Installed before source, and then the later version.
    Installed,
    /// The earlier version, and then installed before source.
    Oldest,
}
