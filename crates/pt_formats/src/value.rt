use pt_base::Text;

/// What a format spec is applied to.
#[derive(Debug, Drop)]
pub enum FormatValue {
    Int(i128),
    Str(Text),
}
