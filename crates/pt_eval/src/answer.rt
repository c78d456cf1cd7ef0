use pt_base::Text;

/// What is shown of an expression.
#[derive(Debug, Drop)]
pub enum EvalAns {
    /// The `repr` of its value, and whether that is true.
    Shown { text: Text, truth: bool },
    /// The class and the text of an exception, or the limit that was met.
    Raise { text: Text },
    /// Other code would run.
    Refused,
}
