//! The settings of a site.

/// What the findings of a rule count for.
#[derive(Clone, Copy, Debug, PartialEq, Eq)]
pub enum Level {
    /// They are not reported.
    Off,
    Warning,
    Error,
}

/// A rule by its name, and what its findings count for.
#[derive(Debug, Drop)]
pub struct RuleLevel {
    pub rule: String,
    pub level: Level,
}

/// The settings of a site. A path is as it is in the file: relative to the folder of the file.
#[derive(Debug, Drop)]
pub struct Settings {
    /// The folder below which the names of templates are paths.
    pub root: Option<String>,
    /// How the names of templates in folders end, where that is not as usual.
    pub extensions: Option<Vec<String>>,
    /// Files and folders that are left out.
    pub exclude: Option<Vec<String>>,
    /// Files and folders whose components may be called.
    pub libraries: Option<Vec<String>>,
    /// Six markers in one word, where they are not the usual ones.
    pub markers: Option<String>,
    /// The rules whose findings do not count as usual.
    pub rules: Vec<RuleLevel>,
    pub known: Known,
}

/// The names that the program which renders the templates registers. A list that is absent says nothing.
#[derive(Debug, Drop)]
pub struct Known {
    pub filters: Option<Vec<String>>,
    pub tests: Option<Vec<String>>,
    pub functions: Option<Vec<String>>,
}
