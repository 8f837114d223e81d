//! The records of the Build Server Protocol 2.2: what is read of a JSON value, and what is written as one; and
//! what of them is short enough for a frame.
//!
//! It stands on `json_shape` for reading, on `bsp_address` and `ob_text`, and on `serde_json`. It knows the protocol's
//! records, and nothing of a session. Begin with `specs/Params.antt` and `params.rt`, then `Requests.antt` and
//! `requests.rt`, which read a request by its method.
#![tactic(auto)]

mod diagnostics;
mod identifiers;
mod kinds;
mod notices;
mod numbers;
mod params;
mod printing;
mod publishing;
mod reading;
mod requests;
mod results;
mod shown;
mod tasks;
mod writing;

pub use diagnostics::{DiagnosticRecord, DiagnosticSeverity};
pub use identifiers::{BuildTargetIdentifier, TextDocumentIdentifier};
pub use json_shape::BadValue as BadParams;
pub use notices::{
    BuildTargetEvent, BuildTargetEventKind, DidChangeParams, LogMessageParams, MessageType,
    write_did_change_params, write_log_message_params,
};
pub use params::{
    BuildClientCapabilities, CleanCacheParams, CompileParams, InitializeParams,
    InverseSourcesParams, RunParams, SourcesParams, TestParams, read_clean_cache_params,
    read_compile_params, read_initialize_params, read_inverse_sources_params, read_run_params,
    read_sources_params, read_test_params,
};
pub use printing::print_publication;
pub use publishing::{
    PublishDiagnosticsParams, read_publish_diagnostics_params, write_publish_diagnostics_params,
};
pub use requests::{Method, Request, read_request};
pub use results::{
    BuildTarget, BuildTargetCapabilities, BuildTargetsResult, CleanCacheResult, CompileResult,
    InverseSourcesResult, RunResult, SourceItem, SourceItemKind, SourcesItem, SourcesResult,
    StatusCode, TestResult, write_build_targets_result, write_clean_cache_result,
    write_compile_result, write_inverse_sources_result, write_run_result, write_sources_result,
    write_test_result,
};
pub use shown::{name_shown, show, show_all};
pub use tasks::{
    CompileReport, CompileTask, TaskFinishBody, TaskFinishParams, TaskId, TaskStartBody,
    TaskStartParams, TestFinish, TestReport, TestStart, TestStatus, TestTask,
    write_task_finish_params, write_task_start_params,
};
