ghost use Rattle.std.specs.Prelude.{◌≡◌};
ghost use Rattle.ob_text.specs.Code.{name_of, message_of, severity_of};

/// What a diagnostic says of its place. The codes stand in the order of their numbers: first those of a
/// document, then those of its lexis, its grammar and its types. The number is `code as u8`.
#[derive(Clone, Copy, Debug, PartialEq, Eq)]
pub enum Code {
    DocumentAbsent = 1,
    DocumentTooLarge,
    DocumentNotText,
    BadCharacter,
    OpenComment,
    OpenString,
    BadNumber,
    NumberTooLarge,
    BadToken,
    ModuleName,
    EndName,
    NoModule,
    ImportBroken,
    ImportCyclic,
    UnusedImport,
    NameTwice,
    NoName,
    NotType,
    NotConstant,
    ConstantRange,
    TypeTooLarge,
    InterfaceTooLarge,
    BadBase,
    BadResult,
    BadReturn,
    BadSelector,
    NotVariable,
    ReadOnly,
    BadOperand,
    NotAssignable,
    NotBoolean,
    NotInteger,
    BadCall,
    ArgumentCount,
    BadArgument,
    BadCase,
    LabelTwice,
    BadControl,
}

/// How much a diagnostic matters (Language Server Protocol 3.17, DiagnosticSeverity). Its number in the
/// protocol is `severity as u8`.
#[derive(Clone, Copy, Debug, PartialEq, Eq)]
pub enum Severity {
    Error = 1,
    Warning = 2,
}

impl Code {
    /// The code as it is printed, such as `badToken`.
    #[tactic(auto, unfolding(crate::specs::Code::name_of))]
    pub fn name(self) -> &'static str
        ensures { result.now ≡ name_of self }
    {
        match self {
            Code::DocumentAbsent => "documentAbsent",
            Code::DocumentTooLarge => "documentTooLarge",
            Code::DocumentNotText => "documentNotText",
            Code::BadCharacter => "badCharacter",
            Code::OpenComment => "openComment",
            Code::OpenString => "openString",
            Code::BadNumber => "badNumber",
            Code::NumberTooLarge => "numberTooLarge",
            Code::BadToken => "badToken",
            Code::ModuleName => "moduleName",
            Code::EndName => "endName",
            Code::NoModule => "noModule",
            Code::ImportBroken => "importBroken",
            Code::ImportCyclic => "importCyclic",
            Code::UnusedImport => "unusedImport",
            Code::NameTwice => "nameTwice",
            Code::NoName => "noName",
            Code::NotType => "notType",
            Code::NotConstant => "notConstant",
            Code::ConstantRange => "constantRange",
            Code::TypeTooLarge => "typeTooLarge",
            Code::InterfaceTooLarge => "interfaceTooLarge",
            Code::BadBase => "badBase",
            Code::BadResult => "badResult",
            Code::BadReturn => "badReturn",
            Code::BadSelector => "badSelector",
            Code::NotVariable => "notVariable",
            Code::ReadOnly => "readOnly",
            Code::BadOperand => "badOperand",
            Code::NotAssignable => "notAssignable",
            Code::NotBoolean => "notBoolean",
            Code::NotInteger => "notInteger",
            Code::BadCall => "badCall",
            Code::ArgumentCount => "argumentCount",
            Code::BadArgument => "badArgument",
            Code::BadCase => "badCase",
            Code::LabelTwice => "labelTwice",
            Code::BadControl => "badControl",
        }
    }

    /// The text of the message, in ASCII. Where it ends in `: ` the diagnostic's name goes behind it.
    #[tactic(auto, unfolding(crate::specs::Code::message_of))]
    pub fn message(self) -> &'static str
        ensures { result.now ≡ message_of self }
    {
        match self {
            Code::DocumentAbsent => "document is absent",
            Code::DocumentTooLarge => "document is too large",
            Code::DocumentNotText => "document is not UTF-8",
            Code::BadCharacter => "bad character",
            Code::OpenComment => "comment is not closed",
            Code::OpenString => "string is not closed",
            Code::BadNumber => "bad number",
            Code::NumberTooLarge => "number is too large",
            Code::BadToken => "unexpected symbol",
            Code::ModuleName => "module name differs from the file",
            Code::EndName => "name after END differs",
            Code::NoModule => "no such module: ",
            Code::ImportBroken => "imported module has errors: ",
            Code::ImportCyclic => "import cycle: ",
            Code::UnusedImport => "unused import: ",
            Code::NameTwice => "name declared twice: ",
            Code::NoName => "unknown name: ",
            Code::NotType => "not a type: ",
            Code::NotConstant => "constant expected",
            Code::ConstantRange => "constant out of range",
            Code::TypeTooLarge => "type is too large",
            Code::InterfaceTooLarge => "interface is too large",
            Code::BadBase => "not a record type: ",
            Code::BadResult => "result type must be scalar",
            Code::BadReturn => "RETURN does not fit",
            Code::BadSelector => "selector does not fit",
            Code::NotVariable => "variable expected",
            Code::ReadOnly => "variable is read-only",
            Code::BadOperand => "operand types do not fit",
            Code::NotAssignable => "value is not assignable",
            Code::NotBoolean => "BOOLEAN expected",
            Code::NotInteger => "INTEGER expected",
            Code::BadCall => "call does not fit",
            Code::ArgumentCount => "wrong number of arguments",
            Code::BadArgument => "argument does not fit",
            Code::BadCase => "label does not fit",
            Code::LabelTwice => "label overlaps",
            Code::BadControl => "control variable must be an INTEGER variable",
        }
    }

    pub fn severity(self) -> Severity
        ensures { result ≡ severity_of self }
    {
        match self {
            Code::UnusedImport => Severity::Warning,
            _ => Severity::Error,
        }
    }
}
