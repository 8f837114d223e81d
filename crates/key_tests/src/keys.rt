use crate::samples::{SAMPLES, numbered, view};
use iface_key::{Key, Keys, key_of, one_key, one_view, view_of};
use indexmap::IndexMap;
use ob_text::{Name, NoMemory, Text};
use oberon_types::{Entity, Exports, Ty, Value, View};
use std::alloc::Global;
use std::sync::Arc;
use std::test::Fail;

/// The samples' keys have numbers of their own, and views that are built apart have the same ones.
#[test]
fn samples_differ(rt: HostRuntime) -> Result<(), Fail> {
    let mut keys = Keys::new(rt.alloc());
    for number in 0..SAMPLES {
        let key = key_of(rt.alloc(), &view(rt.alloc(), numbered(number))?)?;
        assert_eq!(rt; keys.intern(key)?, number as u64);
    }
    for number in 0..SAMPLES {
        let key = key_of(rt.alloc(), &view(rt.alloc(), numbered(number))?)?;
        assert_eq!(rt; keys.intern(key.copy(rt.alloc())?)?, number as u64);
        assert!(rt; keys.same(number as u64, number as u64));
        assert!(rt; !keys.same(number as u64, 20));
    }
    Ok(())
}

/// The view that a key gives back has that key.
#[test]
fn views_come_back(rt: HostRuntime) -> Result<(), Fail> {
    for number in 0..SAMPLES {
        let key = key_of(rt.alloc(), &view(rt.alloc(), numbered(number))?)?;
        assert!(rt; comes_back(rt.alloc(), &key)?, "sample {number}");
    }
    Ok(())
}

/// Does a key give back a view of this key?
pub fn comes_back(alloc: Global, key: &Key) -> Result<bool, NoMemory> {
    match view_of(alloc, key)? {
        Some(view) => Ok(key_of(alloc, &view)? == *key),
        None => Ok(false),
    }
}

/// A view of one entity.
fn one_entity(alloc: Global, entity: Entity) -> Result<View, NoMemory> {
    let mut entities = IndexMap::new(alloc);
    let_go(entities.insert(Name::new(alloc, b"a")?, entity)?);
    Ok(View::Exports(Arc::new(alloc, Exports { entities })?))
}

fn let_go(_old: Option<Entity>) {}

/// Is this the key of a view, and does it give a view of this key back?
fn is_key(alloc: Global, view: &View, bytes: &[u8]) -> Result<bool, NoMemory> {
    let key = key_of(alloc, view)?;
    Ok(key.as_slice() == bytes && comes_back(alloc, &key)?)
}

/// Bytes that are worked out from the form by hand.
#[test]
fn bytes_by_hand(rt: HostRuntime) -> Result<(), Fail> {
    let alloc = rt.alloc();
    assert!(rt; is_key(alloc, &View::Missing, &[0])?);
    assert!(rt; is_key(alloc, &View::Broken, &[1])?);
    assert!(rt; is_key(alloc, &View::Cyclic, &[2])?);
    let seven = one_entity(alloc, Entity::Constant(Value::Integer(7)))?;
    assert!(rt; is_key(alloc, &seven, &[3, 1, 97, 0, 0, 0, 14, 0, 0, 0, 0])?);
    let least = one_entity(alloc, Entity::Constant(Value::Integer(-2_147_483_648)))?;
    assert!(rt; is_key(alloc, &least, &[3, 1, 97, 0, 0, 0, 255, 255, 255, 255, 0])?);
    let text = Text::new(alloc, &[0, 65, 1])?;
    let string = one_entity(alloc, Entity::Constant(Value::Str(text)))?;
    assert!(rt; is_key(alloc, &string, &[3, 1, 97, 0, 0, 4, 1, 0, 65, 1, 1, 0, 0])?);
    Ok(())
}

/// An array of 258 strings of one character.
#[test]
fn types_by_hand(rt: HostRuntime) -> Result<(), Fail> {
    let alloc = rt.alloc();
    let element = Arc::new(alloc, Ty::Str(1))?;
    let array = Ty::Array {
        length: 258,
        element,
    };
    let variable = one_entity(alloc, Entity::Variable(array))?;
    assert!(rt;
        is_key(
            alloc,
            &variable,
            &[3, 1, 97, 0, 2, 7, 2, 1, 0, 0, 6, 1, 0, 0, 0, 0]
        )?
    );
    let letter = one_entity(alloc, Entity::Constant(Value::Char(200)))?;
    assert!(rt; is_key(alloc, &letter, &[3, 1, 97, 0, 0, 1, 200, 0])?);
    let truth = one_entity(alloc, Entity::Constant(Value::Boolean(true)))?;
    assert!(rt; is_key(alloc, &truth, &[3, 1, 97, 0, 0, 2, 1, 0])?);
    Ok(())
}

#[test]
fn laws_stand(_rt: HostRuntime) -> Result<(), Fail> {
    one_key();
    one_view();
    Ok(())
}
