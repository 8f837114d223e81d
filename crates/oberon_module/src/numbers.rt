ghost use Rattle.std.specs.Prelude.{◌≡◌};
ghost use Rattle.oberon_rules.specs.Order.{number_of};
ghost use Rattle.oberon_module.specs.Numbers.{code_numbered};

use ob_text::Code;

/// The number of a code.
pub fn number_of(code: Code) -> u32
    ensures { result ≡ number_of code }
{
    match code {
        Code::DocumentAbsent => 1,
        Code::DocumentTooLarge => 2,
        Code::DocumentNotText => 3,
        Code::BadCharacter => 4,
        Code::OpenComment => 5,
        Code::OpenString => 6,
        Code::BadNumber => 7,
        Code::NumberTooLarge => 8,
        Code::BadToken => 9,
        Code::ModuleName => 10,
        Code::EndName => 11,
        Code::NoModule => 12,
        Code::ImportBroken => 13,
        Code::ImportCyclic => 14,
        Code::UnusedImport => 15,
        Code::NameTwice => 16,
        Code::NoName => 17,
        Code::NotType => 18,
        Code::NotConstant => 19,
        Code::ConstantRange => 20,
        Code::TypeTooLarge => 21,
        Code::InterfaceTooLarge => 22,
        Code::BadBase => 23,
        Code::BadResult => 24,
        Code::BadReturn => 25,
        Code::BadSelector => 26,
        Code::NotVariable => 27,
        Code::ReadOnly => 28,
        Code::BadOperand => 29,
        Code::NotAssignable => 30,
        Code::NotBoolean => 31,
        Code::NotInteger => 32,
        Code::BadCall => 33,
        Code::ArgumentCount => 34,
        Code::BadArgument => 35,
        Code::BadCase => 36,
        Code::LabelTwice => 37,
        Code::BadControl => 38,
    }
}

/// The code of a number, or the last one where no code has it.
pub fn code_of(number: u32) -> Code
    ensures { result ≡ code_numbered number }
{
    match number {
        1 => Code::DocumentAbsent,
        2 => Code::DocumentTooLarge,
        3 => Code::DocumentNotText,
        4 => Code::BadCharacter,
        5 => Code::OpenComment,
        6 => Code::OpenString,
        7 => Code::BadNumber,
        8 => Code::NumberTooLarge,
        9 => Code::BadToken,
        10 => Code::ModuleName,
        11 => Code::EndName,
        12 => Code::NoModule,
        13 => Code::ImportBroken,
        14 => Code::ImportCyclic,
        15 => Code::UnusedImport,
        16 => Code::NameTwice,
        17 => Code::NoName,
        18 => Code::NotType,
        19 => Code::NotConstant,
        20 => Code::ConstantRange,
        21 => Code::TypeTooLarge,
        22 => Code::InterfaceTooLarge,
        23 => Code::BadBase,
        24 => Code::BadResult,
        25 => Code::BadReturn,
        26 => Code::BadSelector,
        27 => Code::NotVariable,
        28 => Code::ReadOnly,
        29 => Code::BadOperand,
        30 => Code::NotAssignable,
        31 => Code::NotBoolean,
        32 => Code::NotInteger,
        33 => Code::BadCall,
        34 => Code::ArgumentCount,
        35 => Code::BadArgument,
        36 => Code::BadCase,
        37 => Code::LabelTwice,
        _ => Code::BadControl,
    }
}
