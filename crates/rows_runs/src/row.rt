//! Rows, and the fields that they are run at.

/// A row: `call arguments -> answer`.
#[derive(Clone, Copy)]
pub struct Row<'a> {
    pub call: &'a str,
    pub arguments: &'a str,
    pub answer: &'a str,
}

impl<'a> Row<'a> {
    /// The row that a line is; `None` where it has no arrow.
    pub fn of_line(line: &'a str) -> Option<Row<'a>> {
        let (left, answer) = line.split_once("->")?;
        let left = left.trim();
        let (call, arguments) = left.split_once(' ').unwrap_or((left, ""));
        Some(Row {
            call,
            arguments,
            answer,
        })
    }
}

/// At which fields rows are run, and which of their allocations are refused: the first, and every
/// `step`-th after it.
#[derive(Clone, Copy)]
pub struct Fields {
    pub field: bool,
    pub boxed: bool,
    pub quotients: bool,
    pub step: u32,
}

impl Fields {
    /// The Goldilocks field, plain and boxed.
    pub const DEFAULT: Fields = Fields {
        field: true,
        boxed: true,
        quotients: false,
        step: 1,
    };

    /// The fields that are named.
    pub fn of_names(names: &str) -> Fields {
        Fields {
            field: names.contains("field"),
            boxed: names.contains("boxed"),
            quotients: names.contains("quotients"),
            step: 1,
        }
    }
}
