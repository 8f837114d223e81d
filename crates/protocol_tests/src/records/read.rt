use super::{parsed, path_of};
use bsp_records::{
    Method, read_clean_cache_params, read_compile_params, read_initialize_params,
    read_inverse_sources_params, read_publish_diagnostics_params, read_request, read_run_params,
    read_sources_params, read_test_params,
};
use ob_text::Text;
use serde_json::Value;
use std::alloc::Global;
use std::test::Fail;

/// The records that are read.
#[derive(Clone, Copy)]
enum Record {
    Initialize,
    Sources,
    InverseSources,
    Compile,
    Test,
    Run,
    CleanCache,
    Publish,
}

/// Reads params as a record, and gives the path of the refusal.
fn read(alloc: Global, record: Record, value: &Value) -> Result<Text, Fail> {
    let path = match record {
        Record::Initialize => path_of(alloc, read_initialize_params(alloc, value)),
        Record::Sources => path_of(alloc, read_sources_params(alloc, value)),
        Record::InverseSources => path_of(alloc, read_inverse_sources_params(alloc, value)),
        Record::Compile => path_of(alloc, read_compile_params(alloc, value)),
        Record::Test => path_of(alloc, read_test_params(alloc, value)),
        Record::Run => path_of(alloc, read_run_params(alloc, value)),
        Record::CleanCache => path_of(alloc, read_clean_cache_params(alloc, value)),
        Record::Publish => path_of(alloc, read_publish_diagnostics_params(alloc, value)),
    };
    Ok(path?)
}

/// Params, and the path at which they are bad, if at any.
const ROWS: [(Record, &str, &str); 22] = [
    (
        Record::Initialize,
        "{\"displayName\":\"t\",\"version\":\"1\",\"bspVersion\":\"2.2.0\",\"rootUri\":\"file:///w\",\"capabilities\":{\"languageIds\":[\"oberon\"]},\"data\":1}",
        "",
    ),
    (Record::Initialize, "{}", "displayName"),
    (
        Record::Initialize,
        "{\"displayName\":\"t\",\"version\":\"1\",\"bspVersion\":\"2\",\"rootUri\":\"\",\"capabilities\":{\"languageIds\":[\"a\",1]}}",
        "capabilities.languageIds[1]",
    ),
    (
        Record::Initialize,
        "{\"displayName\":\"t\",\"version\":\"1\",\"bspVersion\":\"2\",\"rootUri\":\"\",\"capabilities\":[]}",
        "capabilities",
    ),
    (
        Record::Initialize,
        "{\"displayName\":\"t\",\"version\":\"1\",\"capabilities\":{}}",
        "bspVersion",
    ),
    (Record::Compile, "[]", "params"),
    (Record::Compile, "{\"targets\":null}", "targets"),
    (Record::Compile, "{\"targets\":[3]}", "targets[0]"),
    (
        Record::Compile,
        "{\"targets\":[{\"uri\":\"a\"},{\"uri\":1}]}",
        "targets[1].uri",
    ),
    (
        Record::Compile,
        "{\"targets\":[],\"originId\":7,\"arguments\":1}",
        "originId",
    ),
    (
        Record::Compile,
        "{\"targets\":[],\"arguments\":[\"a\",null]}",
        "arguments[1]",
    ),
    (
        Record::Test,
        "{\"targets\":[{\"uri\":\"a\"}],\"originId\":null,\"arguments\":null}",
        "",
    ),
    (Record::Test, "{\"originId\":\"o\"}", "targets"),
    (
        Record::Run,
        "{\"target\":{\"uri\":\"a\"},\"originId\":\"o\",\"arguments\":[\"a\"]}",
        "",
    ),
    (Record::Run, "{\"target\":{}}", "target.uri"),
    (Record::Sources, "{\"targets\":[{\"uri\":\"a\"}]}", ""),
    (Record::Sources, "null", "params"),
    (Record::CleanCache, "{\"targets\":[]}", ""),
    (
        Record::InverseSources,
        "{\"textDocument\":{\"uri\":\"a\"}}",
        "",
    ),
    (
        Record::InverseSources,
        "{\"textDocument\":\"a\"}",
        "textDocument",
    ),
    (
        Record::Publish,
        "{\"textDocument\":{\"uri\":\"a\"},\"buildTarget\":{\"uri\":\"b\"},\"diagnostics\":[{\"range\":{\"start\":{\"line\":0,\"character\":4294967296},\"end\":{}},\"message\":\"\"}],\"reset\":true}",
        "diagnostics[0].range.start.character",
    ),
    (
        Record::Publish,
        "{\"textDocument\":{\"uri\":\"a\"},\"buildTarget\":{\"uri\":\"b\"},\"diagnostics\":[{\"range\":{\"start\":{\"line\":0,\"character\":1.0},\"end\":{}},\"message\":\"\"}],\"reset\":true}",
        "diagnostics[0].range.start.character",
    ),
];

#[test]
fn refuses_at_the_first_bad_field(rt: HostRuntime) -> Result<(), Fail> {
    let alloc = rt.alloc();
    for (record, params, want) in ROWS {
        let path = read(alloc, record, &parsed(alloc, params)?)?;
        assert!(rt; path.as_slice() == want.as_bytes(), "{params}");
    }
    Ok(())
}

/// Params whose string is so long.
fn with_origin(alloc: Global, count: usize) -> Result<Value, Fail> {
    let text = repeated(alloc, count)?;
    let params = format!(in alloc; "{{\"targets\":[],\"originId\":\"{text}\"}}")?;
    parsed(alloc, params.as_str())
}

fn with_root(alloc: Global, count: usize) -> Result<Value, Fail> {
    let text = repeated(alloc, count)?;
    let params = format!(in alloc;
        "{{\"displayName\":\"\",\"version\":\"\",\"bspVersion\":\"\",\"rootUri\":\"{text}\",\"capabilities\":null}}"
    )?;
    parsed(alloc, params.as_str())
}

fn repeated(alloc: Global, count: usize) -> Result<String, Fail> {
    let mut text = String::new(alloc);
    for _ in 0..count {
        text.push('a')?;
    }
    Ok(text)
}

#[test]
fn limits_are_in_bytes(rt: HostRuntime) -> Result<(), Fail> {
    let alloc = rt.alloc();
    for (count, want) in [(1_024, ""), (1_025, "originId")] {
        let path = read(alloc, Record::Compile, &with_origin(alloc, count)?)?;
        assert!(rt; path.as_slice() == want.as_bytes());
    }
    for (count, want) in [(4_096, "capabilities"), (4_097, "rootUri")] {
        let path = read(alloc, Record::Initialize, &with_root(alloc, count)?)?;
        assert!(rt; path.as_slice() == want.as_bytes());
    }
    Ok(())
}

/// A method, its params, and the path at which they are bad, if at any.
const REQUESTS: [(&str, Option<&str>, &str); 10] = [
    ("build/initialize", None, "params"),
    ("build/initialize", Some("{}"), "displayName"),
    ("build/shutdown", Some("[]"), ""),
    ("workspace/buildTargets", None, ""),
    ("workspace/reload", Some("[]"), ""),
    ("buildTarget/sources", Some("{\"targets\":[]}"), ""),
    (
        "buildTarget/inverseSources",
        Some("{\"textDocument\":{}}"),
        "textDocument.uri",
    ),
    ("buildTarget/compile", Some("{\"targets\":[]}"), ""),
    ("buildTarget/compile", Some("null"), "params"),
    (
        "buildTarget/cleanCache",
        Some("{\"targets\":[{}]}"),
        "targets[0].uri",
    ),
];

fn asked(alloc: Global, method: Method, params: Option<&str>) -> Result<Text, Fail> {
    let params = match params {
        Some(text) => Some(parsed(alloc, text)?),
        None => None,
    };
    Ok(path_of(alloc, read_request(alloc, method, params))?)
}

#[test]
fn reads_requests(rt: HostRuntime) -> Result<(), Fail> {
    let alloc = rt.alloc();
    for (name, params, want) in REQUESTS {
        let method = Method::named(name.as_bytes()).ok_or("unknown")?;
        let path = asked(alloc, method, params)?;
        assert!(rt; path.as_slice() == want.as_bytes(), "{name}");
    }
    for name in ["build/exit", "buildTarget/test", "build/Initialize", ""] {
        assert!(rt; Method::named(name.as_bytes()).is_none(), "{name}");
    }
    Ok(())
}
