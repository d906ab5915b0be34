/// What the program is asked to do.
#[derive(Clone, Copy, Debug, PartialEq, Eq)]
pub enum Asked {
    /// To run the script on standard input.
    Run,
    /// To write the script of `rows` rows that is generated from `start`.
    Make {
        /// From 2 to 4,096.
        rows: u32,
        /// At most 2,147,483,647.
        start: u32,
    },
}
