/// The body of a destructor: gives up each field of `self`. A destructor is written out for a large type, so that
/// it is proved once: a derived one is expanded at each exit of each function that drops a value.
#[macro_export]
macro_rules! drop_fields {
    ($value:expr; $($field:ident),+) => {
        let Self { $($field: _),+ } = $value;
    };
}
