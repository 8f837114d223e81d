use indexmap::IndexMap;
use ob_text::{Items, Name, NoMemory};
use oberon_types::{
    Entity, Exports, Field, Origin, Param, RecordTy, Signature, Step, Ty, Value, View,
};
use std::alloc::Global;
use std::sync::Arc;

/// How many samples there are.
pub const SAMPLES: u32 = 20;

/// What a small view shows. Samples differ in one thing each.
#[derive(Clone, Copy)]
pub struct Sample {
    pub value: i32,
    pub is_set: bool,
    pub constant: &'static str,
    pub home: &'static str,
    pub in_procedure: bool,
    pub record: &'static str,
    pub in_array: bool,
    pub has_base: bool,
    pub fields: [&'static str; 2],
    pub marked: bool,
    pub size: u32,
    pub length: u32,
    pub by_var: bool,
    pub by_name: bool,
    pub is_function: bool,
    pub params: u32,
}

fn first() -> Sample {
    Sample {
        value: 7,
        is_set: false,
        constant: "c",
        home: "M",
        in_procedure: false,
        record: "R",
        in_array: false,
        has_base: false,
        fields: ["x", "y"],
        marked: true,
        size: 2,
        length: 3,
        by_var: false,
        by_name: false,
        is_function: false,
        params: 1,
    }
}

/// The sample of a number, which differs from the first in one thing.
pub fn numbered(number: u32) -> Sample {
    let mut made = first();
    match number {
        1 => made.value = 8,
        2 => made.value = -8,
        3 => made.is_set = true,
        4 => made.constant = "d",
        5 => made.home = "N",
        6 => made.in_procedure = true,
        7 => made.record = "S",
        8 => made.in_array = true,
        9 => made.has_base = true,
        10 => made.fields = ["z", "y"],
        11 => made.fields = ["y", "x"],
        12 => made.marked = false,
        13 => made.size = 3,
        _ => made = other_sample(number, made),
    }
    made
}

fn other_sample(number: u32, first: Sample) -> Sample {
    let mut made = first;
    match number {
        14 => made.length = 259,
        15 => made.by_var = true,
        16 => made.by_name = true,
        17 => made.is_function = true,
        18 => made.params = 0,
        19 => made.params = 2,
        _ => {}
    }
    made
}

/// A view with a constant, a record, an array and a procedure.
pub fn view(alloc: Global, given: Sample) -> Result<View, NoMemory> {
    let mut entities = IndexMap::new(alloc);
    let constant = Name::new(alloc, given.constant.as_bytes())?;
    let_go(entities.insert(constant, Entity::Constant(value(given)))?);
    let record = Ty::Record(Arc::new(alloc, record(alloc, given)?)?);
    let_go(entities.insert(Name::new(alloc, b"r")?, Entity::TypeName(record))?);
    let array = array(alloc, given.length)?;
    let_go(entities.insert(Name::new(alloc, b"v")?, Entity::Variable(array))?);
    let signature = signature(alloc, given)?;
    let_go(entities.insert(Name::new(alloc, b"p")?, Entity::Proc(signature))?);
    Ok(View::Exports(Arc::new(alloc, Exports { entities })?))
}

fn let_go(_old: Option<Entity>) {}

fn value(given: Sample) -> Value {
    if given.is_set {
        Value::Set(14)
    } else {
        Value::Integer(given.value)
    }
}

fn array(alloc: Global, length: u32) -> Result<Ty, NoMemory> {
    let element = Arc::new(alloc, Ty::Str(1))?;
    Ok(Ty::Array { length, element })
}

fn record(alloc: Global, given: Sample) -> Result<RecordTy, NoMemory> {
    let origin = origin(alloc, given)?;
    let base = base(alloc, given)?;
    let mut fields = Vec::new(alloc);
    for name in given.fields {
        fields.push(Field {
            name: Name::new(alloc, name.as_bytes())?,
            exported: given.marked,
            ty: Ty::Byte,
        })?;
    }
    RecordTy::of(alloc, origin, base, fields, given.size)
}

fn base(alloc: Global, given: Sample) -> Result<Option<Arc<RecordTy>>, NoMemory> {
    if !given.has_base {
        return Ok(None);
    }
    let made = RecordTy::of(alloc, origin(alloc, first())?, None, Vec::new(alloc), 0)?;
    Ok(Some(Arc::new(alloc, made)?))
}

fn origin(alloc: Global, given: Sample) -> Result<Origin, NoMemory> {
    let mut path = Vec::new(alloc);
    path.push(Step::Field(Name::new(alloc, b"f")?))?;
    if given.in_array {
        path.push(Step::Element)?;
    }
    let procedure = if given.in_procedure {
        Some(Name::new(alloc, b"P")?)
    } else {
        None
    };
    Ok(Origin {
        module: Name::new(alloc, given.home.as_bytes())?,
        procedure,
        name: Name::new(alloc, given.record.as_bytes())?,
        path: Items::from_vec(path),
    })
}

fn signature(alloc: Global, given: Sample) -> Result<Signature, NoMemory> {
    let mut params = Vec::new(alloc);
    for _ in 0..given.params {
        let element = Arc::new(alloc, Ty::Char)?;
        params.push(Param {
            by_var: given.by_var,
            ty: if given.by_name {
                Ty::Integer
            } else {
                Ty::Open { element }
            },
        })?;
    }
    Ok(Signature {
        params,
        result_type: if given.is_function {
            Some(Ty::Boolean)
        } else {
            None
        },
    })
}
