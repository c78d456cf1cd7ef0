use pt_base::Text;

/// How an argument is passed (Language Reference 6.3.4).
#[derive(Debug, Drop)]
pub enum Role {
    Positional,
    /// By a name, as the block spells it.
    Named(Text),
    /// `*`
    Spread,
    /// `**`
    SpreadNamed,
}
