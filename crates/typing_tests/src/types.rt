use indexmap::IndexMap;
use ob_text::{Items, Name, NoMemory};
use oberon_types::{
    Entity, Exports, Field, Origin, Param, RecordTy, Signature, Ty, Value, View, array_type,
    assignable, field_of, open_type, record_type, same_type, sees, size_of, too_large,
};
use std::alloc::Global;
use std::sync::Arc;
use std::test::Fail;

/// Which of the fifteen types below are the same, a row for each.
const SAME: [&str; 15] = [
    "111111111111111",
    "110000000000000",
    "101000000000000",
    "100100000000000",
    "100010000000000",
    "100001000000000",
    "100000100000000",
    "100000010000000",
    "100000001000000",
    "100000000110000",
    "100000000110000",
    "100000000001000",
    "100000000000100",
    "100000000000010",
    "100000000000001",
];

/// To which of them, a digit for each, a value of the row's type is assignable.
const ASSIGNABLE: [&str; 15] = [
    "111111111111111",
    "111000000000000",
    "111000000000000",
    "100100000000000",
    "100010000000000",
    "100001000000000",
    "100100001110000",
    "100000000110000",
    "100000001000000",
    "100000000110000",
    "100000000110000",
    "100000000000000",
    "100000000000100",
    "100000000000110",
    "100000000000001",
];

#[test]
fn sameness(rt: HostRuntime) -> Result<(), Fail> {
    let types = fifteen(rt.alloc())?;
    for (a, row) in types.iter().zip(SAME) {
        for (b, digit) in types.iter().zip(row.bytes()) {
            assert_eq!(rt; same_type(a, b), digit == b'1', "in the row {row}");
        }
    }
    Ok(())
}

#[test]
fn assignability(rt: HostRuntime) -> Result<(), Fail> {
    let types = fifteen(rt.alloc())?;
    for (value, row) in types.iter().zip(ASSIGNABLE) {
        for (target, digit) in types.iter().zip(row.bytes()) {
            assert_eq!(rt;
                assignable(&value.copy()?, target),
                digit == b'1',
                "in the row {row}"
            );
        }
    }
    Ok(())
}

/// A record with fields of its own and of its base.
fn derived(alloc: Global) -> Result<Arc<RecordTy>, NoMemory> {
    let base = record(alloc, "Base", None, &["x", "Shown"])?;
    record(alloc, "Derived", Some(base), &["y"])
}

/// Does a module see a field of a record by this name?
fn is_seen(alloc: Global, module: &str, field: &str, ty: &RecordTy) -> Result<bool, NoMemory> {
    let module = Name::new(alloc, module.as_bytes())?;
    let field = Name::new(alloc, field.as_bytes())?;
    Ok(field_of(&module, &field, ty).is_some())
}

#[test]
fn fields(rt: HostRuntime) -> Result<(), Fail> {
    let derived = derived(rt.alloc())?;
    for (name, in_own, in_other) in [
        ("x", true, false),
        ("Shown", true, true),
        ("y", true, false),
        ("z", false, false),
    ] {
        assert_eq!(rt; is_seen(rt.alloc(), "M", name, &derived)?, in_own, "{name}");
        assert_eq!(rt;
            is_seen(rt.alloc(), "N", name, &derived)?,
            in_other,
            "{name}"
        );
    }
    assert_eq!(rt; size_of(&Ty::Record(derived)), 3);
    Ok(())
}

/// Names of fields, and their sizes.
const SIZED: [(u8, u32); 12] = [
    (b'a', 1),
    (b'b', 2),
    (b'c', 3),
    (b'd', 4),
    (b'e', 5),
    (b'f', 6),
    (b'g', 7),
    (b'h', 8),
    (b'i', 9),
    (b'j', 10),
    (b'k', 11),
    (b'l', 12),
];

/// A record of the module M with so many fields and then one more `b`. Of every third the type isn't known; every second is
/// exported, from the first on.
fn lettered(alloc: Global, count: usize) -> Result<RecordTy, NoMemory> {
    let me = Name::new(alloc, b"M")?;
    let mut fields = Vec::new(alloc);
    for (letter, size) in SIZED.into_iter().take(count) {
        let ty = match array_type(alloc, &me, size, Ty::Integer)? {
            Some(ty) if size % 3 != 0 => ty,
            _ => Ty::Unknown,
        };
        fields.push(Field {
            name: Name::new(alloc, &[letter])?,
            exported: size % 2 == 1,
            ty,
        })?;
    }
    fields.push(Field {
        name: Name::new(alloc, b"b")?,
        exported: true,
        ty: Ty::Byte,
    })?;
    RecordTy::of(alloc, origin(alloc, "Lettered")?, None, fields, 0)
}

/// The size of a field as a module sees it: 0 where its type isn't known.
fn seen_size(
    alloc: Global,
    module: &[u8],
    field: &[u8],
    given: &RecordTy,
) -> Result<Option<u32>, NoMemory> {
    let module = Name::new(alloc, module)?;
    let field = Name::new(alloc, field)?;
    Ok(match field_of(&module, &field, given) {
        Some(Some(ty)) => Some(size_of(ty)),
        Some(None) => Some(0),
        None => None,
    })
}

#[test]
fn fields_among_few_and_many(rt: HostRuntime) -> Result<(), Fail> {
    let alloc = rt.alloc();
    for count in [7, 8, 12] {
        let given = lettered(alloc, count)?;
        for (letter, size) in SIZED {
            let own = seen_size(alloc, b"M", &[letter], &given)?;
            let other = seen_size(alloc, b"N", &[letter], &given)?;
            let known = if size % 3 == 0 { 0 } else { size };
            let there = size as usize <= count;
            assert_eq!(rt;
                own,
                if there { Some(known) } else { None },
                "{size} of {count}"
            );
            // In another module the later `b` is seen alone.
            let shown = match letter {
                b'b' => Some(1),
                _ if there && size % 2 == 1 => Some(known),
                _ => None,
            };
            assert_eq!(rt; other, shown, "{size} of {count}, elsewhere");
        }
    }
    Ok(())
}

#[test]
fn hidden_fields(rt: HostRuntime) -> Result<(), Fail> {
    let derived = derived(rt.alloc())?;
    assert!(rt; sees(&Name::new(rt.alloc(), b"M")?, &derived.origin, false));
    assert!(rt; !sees(&Name::new(rt.alloc(), b"N")?, &derived.origin, false));
    Ok(())
}

#[test]
fn limits(rt: HostRuntime) -> Result<(), Fail> {
    let alloc = rt.alloc();
    let me = Name::new(alloc, b"M")?;
    let widest = array_type(alloc, &me, 1_048_576, Ty::Integer)?;
    assert_eq!(rt; widest.map(|ty| size_of(&ty)), Some(1_048_576));
    assert!(rt; array_type(alloc, &me, 1_048_577, Ty::Byte)?.is_none());
    assert!(rt; open_type(alloc, &me, Ty::Char)?.is_some_and(|ty| size_of(&ty) == 0));
    let mut deep = Ty::Char;
    for _ in 0..4095 {
        deep = match array_type(alloc, &me, 1, deep)? {
            Some(ty) => ty,
            None => Ty::Unknown,
        };
    }
    assert!(rt; !too_large(&me, &deep) && size_of(&deep) == 1);
    assert!(rt; array_type(alloc, &me, 1, deep)?.is_none());
    Ok(())
}

/// Of one VAR parameter and a result.
fn signature(alloc: Global) -> Result<Signature, NoMemory> {
    let mut params = Vec::new(alloc);
    params.push(Param {
        by_var: true,
        ty: Ty::Str(2),
    })?;
    Ok(Signature {
        params,
        result_type: Some(Ty::Set),
    })
}

#[test]
fn copies_signatures(rt: HostRuntime) -> Result<(), Fail> {
    let copy = signature(rt.alloc())?.copy(rt.alloc())?;
    assert!(rt;
        copy.params
            .iter()
            .all(|param| param.by_var && same_type(&param.ty, &Ty::Str(2)))
    );
    assert!(rt; matches!(&copy.result_type, Some(ty) if same_type(ty, &Ty::Set)));
    Ok(())
}

fn add_entity(
    alloc: Global,
    exports: &mut Exports,
    name: &str,
    entity: Entity,
) -> Result<(), NoMemory> {
    let name = Name::new(alloc, name.as_bytes())?;
    exports.entities.insert(name, entity.copy(alloc)?)?;
    Ok(())
}

/// A view with an entity of each kind.
fn view(alloc: Global) -> Result<View, NoMemory> {
    let mut exports = Exports {
        entities: IndexMap::new(alloc),
    };
    add_entity(
        alloc,
        &mut exports,
        "c",
        Entity::Constant(Value::Integer(7)),
    )?;
    add_entity(alloc, &mut exports, "p", Entity::Proc(signature(alloc)?))?;
    add_entity(alloc, &mut exports, "t", Entity::TypeName(Ty::Byte))?;
    add_entity(alloc, &mut exports, "v", Entity::Variable(Ty::Byte))?;
    Ok(View::Exports(Arc::new(alloc, exports)?))
}

#[test]
fn copies_views(rt: HostRuntime) -> Result<(), Fail> {
    let view = view(rt.alloc())?;
    assert!(rt; matches!(&view.copy()?, View::Exports(exports) if exports.entities.len() == 4));
    assert!(rt; matches!(&View::Cyclic.copy()?, View::Cyclic));
    Ok(())
}

fn fifteen(alloc: Global) -> Result<Vec<Ty>, NoMemory> {
    let mut types = Vec::new(alloc);
    for ty in [
        Ty::Unknown,
        Ty::Integer,
        Ty::Byte,
        Ty::Char,
        Ty::Boolean,
        Ty::Set,
        Ty::Str(1),
        Ty::Str(3),
    ] {
        types.push(ty)?;
    }
    add_arrays(alloc, &mut types)?;
    add_records(alloc, &mut types)?;
    Ok(types)
}

fn add_arrays(alloc: Global, types: &mut Vec<Ty>) -> Result<(), NoMemory> {
    types.push(array(alloc, 3, Ty::Char)?)?;
    types.push(array(alloc, 4, Ty::Char)?)?;
    types.push(array(alloc, 4, Ty::Unknown)?)?;
    let element = Arc::new(alloc, Ty::Char)?;
    types.push(Ty::Open { element })?;
    Ok(())
}

fn add_records(alloc: Global, types: &mut Vec<Ty>) -> Result<(), NoMemory> {
    let base = record(alloc, "A", None, &["x"])?;
    types.push(Ty::Record(base.clone()?))?;
    types.push(Ty::Record(record(alloc, "B", Some(base), &["y"])?))?;
    types.push(Ty::Record(record(alloc, "C", None, &["x"])?))?;
    Ok(())
}

fn array(alloc: Global, length: u32, element: Ty) -> Result<Ty, NoMemory> {
    Ok(Ty::Array {
        length,
        element: Arc::new(alloc, element)?,
    })
}

/// The origin of a type that the module M declares.
fn origin(alloc: Global, name: &str) -> Result<Origin, NoMemory> {
    Ok(Origin {
        module: Name::new(alloc, b"M")?,
        procedure: None,
        name: Name::new(alloc, name.as_bytes())?,
        path: Items::from_vec(Vec::new(alloc)),
    })
}

/// INTEGER fields. Those with a capital are exported.
fn fields_of(alloc: Global, names: &[&str]) -> Result<Vec<Field>, NoMemory> {
    let mut fields = Vec::new(alloc);
    for name in names {
        fields.push(Field {
            name: Name::new(alloc, name.as_bytes())?,
            exported: name.starts_with('S'),
            ty: Ty::Integer,
        })?;
    }
    Ok(fields)
}

/// A record of the module M with such fields.
fn record(
    alloc: Global,
    name: &str,
    base: Option<Arc<RecordTy>>,
    names: &[&str],
) -> Result<Arc<RecordTy>, NoMemory> {
    let me = Name::new(alloc, b"M")?;
    let origin = origin(alloc, name)?;
    let fields = fields_of(alloc, names)?;
    match record_type(alloc, &me, origin, base, fields)? {
        Some(Ty::Record(made)) => Ok(made),
        _ => Err(NoMemory),
    }
}
