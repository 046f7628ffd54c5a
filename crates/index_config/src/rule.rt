/// What a value of the configuration has to be.
#[derive(Clone, Copy)]
pub enum Rule {
    AnyText,
    Truth,
    AnyTable,
    Whole { least: u64, most: u64 },
    IndexId,
    FieldName,
    ModeName,
    TypeName,
    TokenizerName,
    RecordName,
    FormatName,
    PolicyName,
    Duration { least: u64 },
}

/// What a table asks of a key: whether it has to be there, whether it is a list, and what its value or each member is.
#[derive(Clone, Copy)]
pub struct Ask {
    pub required: bool,
    pub list: bool,
    pub rule: Rule,
}

/// The types of fields.
#[derive(Clone, Copy)]
pub enum FieldType {
    Text,
    I64,
    U64,
    Bool,
    Datetime,
    Object,
    TextList,
}

/// The types of merge policies.
#[derive(Clone, Copy)]
pub enum PolicyType {
    StableLog,
    LimitMerge,
    NoMerge,
}

/// The tables of a configuration.
#[derive(Clone, Copy)]
pub enum RulePlace {
    Top,
    Mapping,
    Indexing,
    Search,
    Retention,
    Upkeep,
    OfField(Option<FieldType>),
    OfPolicy(Option<PolicyType>),
}

/// The tables that may be left out.
#[derive(Clone, Copy)]
pub enum Section {
    Indexing,
    Policy,
    Search,
    Retention,
    Upkeep,
}
