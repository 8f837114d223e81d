ghost use Rattle.std.specs.Prelude.{◌≡◌, IfOk, option_map, unwrap_or};
ghost use Rattle.serde_json.specs.Data.{null};
ghost use Rattle.serde_json.specs.View.{view};
ghost use Rattle.json_shape.specs.Reading.{IfBad};
ghost use Rattle.bsp_records.specs.Reading.{IsPlainPath};
ghost use Rattle.bsp_records.specs.Requests.{method_named, method_name, request_in, HasRequestTexts, ReadsAs};

use crate::BadParams;
use crate::params::{
    CleanCacheParams, CompileParams, InitializeParams, InverseSourcesParams, SourcesParams,
    read_clean_cache_params, read_compile_params, read_initialize_params,
    read_inverse_sources_params, read_sources_params,
};
use serde_json::Value;
use std::alloc::Global;

/// The methods that a session answers (Build Server Protocol 2.2).
#[derive(Clone, Copy, Debug, PartialEq)]
pub enum Method {
    /// build/initialize
    Initialize,
    /// build/shutdown
    Shutdown,
    /// workspace/buildTargets
    BuildTargets,
    /// workspace/reload
    Reload,
    /// buildTarget/sources
    Sources,
    /// buildTarget/inverseSources
    InverseSources,
    /// buildTarget/compile
    Compile,
    /// buildTarget/cleanCache
    CleanCache,
}

/// A request with its params. Those without params here ignore what was sent with them.
#[derive(Debug, Drop)]
pub enum Request {
    Initialize(InitializeParams),
    Shutdown,
    BuildTargets,
    Reload,
    Sources(SourcesParams),
    InverseSources(InverseSourcesParams),
    Compile(CompileParams),
    CleanCache(CleanCacheParams),
}

impl Method {
    /// The method of this name, if it is answered.
    #[tactic(auto, unfolding(crate::specs::Requests::method_named))]
    pub fn named(name: &[u8]) -> Option<Method>
        ensures { result ≡ method_named name.now }
    {
        if b"build/initialize".as_slice() == name {
            Some(Method::Initialize)
        } else if b"build/shutdown".as_slice() == name {
            Some(Method::Shutdown)
        } else if b"workspace/buildTargets".as_slice() == name {
            Some(Method::BuildTargets)
        } else if b"workspace/reload".as_slice() == name {
            Some(Method::Reload)
        } else if b"buildTarget/sources".as_slice() == name {
            Some(Method::Sources)
        } else if b"buildTarget/inverseSources".as_slice() == name {
            Some(Method::InverseSources)
        } else if b"buildTarget/compile".as_slice() == name {
            Some(Method::Compile)
        } else if b"buildTarget/cleanCache".as_slice() == name {
            Some(Method::CleanCache)
        } else {
            None
        }
    }
}

/// The params of a request; those that aren't there are null.
fn or_null(params: Option<Value>) -> Value
    ensures { view result ≡ unwrap_or (option_map view params) null }
{
    match params {
        Some(params) => params,
        None => Value::Null,
    }
}

/// Reads a request. Params that aren't there are bad as a whole, at `params`, where the method takes some.
pub fn read_request(
    alloc: Global,
    method: Method,
    params: Option<Value>,
) -> Result<Request, BadParams>
    ensures read { ReadsAs (request_in method (option_map view params)) result }
    ensures texts { IfOk result HasRequestTexts }
    ensures path { IfBad result IsPlainPath }
{
    let params = or_null(params);
    match method {
        Method::Initialize => match read_initialize_params(alloc, &params) {
            Ok(params) => Ok(Request::Initialize(params)),
            Err(bad) => Err(bad),
        },
        Method::Shutdown => Ok(Request::Shutdown),
        Method::BuildTargets => Ok(Request::BuildTargets),
        Method::Reload => Ok(Request::Reload),
        Method::Sources => match read_sources_params(alloc, &params) {
            Ok(params) => Ok(Request::Sources(params)),
            Err(bad) => Err(bad),
        },
        Method::InverseSources => match read_inverse_sources_params(alloc, &params) {
            Ok(params) => Ok(Request::InverseSources(params)),
            Err(bad) => Err(bad),
        },
        Method::Compile => match read_compile_params(alloc, &params) {
            Ok(params) => Ok(Request::Compile(params)),
            Err(bad) => Err(bad),
        },
        Method::CleanCache => match read_clean_cache_params(alloc, &params) {
            Ok(params) => Ok(Request::CleanCache(params)),
            Err(bad) => Err(bad),
        },
    }
}
