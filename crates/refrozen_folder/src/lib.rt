//! A folder with another freeze file has the same packages. In go a folder and a text in place of its freeze file;
//! out comes that its local files and its index are as before. There is no code here.
#![tactic(auto)]

mod laws;

pub use laws::packages_stay;
