ghost use Rattle.std.specs.Prelude.{IfOk, IfSome};
ghost use Rattle.std.specs.List.{All};
ghost use Rattle.std.specs.Str.{IsUtf8};
ghost use Rattle.bsp_records.specs.Params.{IsTarget};
ghost use Rattle.bsp_records.specs.Results.{HasBuildTargetTexts, HasSourceTexts, HasSourcesTexts};
ghost use Rattle.bsp_records.specs.Tasks.{HasTaskIdTexts, HasStartBodyTexts, HasFinishBodyTexts};

use super::{is_printed, one, owned};
use bsp_records::{
    BuildTarget, BuildTargetCapabilities, BuildTargetEvent, BuildTargetEventKind,
    BuildTargetIdentifier, BuildTargetsResult, CleanCacheResult, CompileReport, CompileResult,
    CompileTask, DidChangeParams, InverseSourcesResult, LogMessageParams, MessageType, RunResult,
    SourceItem, SourceItemKind, SourcesItem, SourcesResult, StatusCode, TaskFinishBody,
    TaskFinishParams, TaskId, TaskStartBody, TaskStartParams, TestFinish, TestReport, TestResult,
    TestStart, TestStatus, TestTask, write_build_targets_result, write_clean_cache_result,
    write_compile_result, write_did_change_params, write_inverse_sources_result,
    write_log_message_params, write_run_result, write_sources_result, write_task_finish_params,
    write_task_start_params, write_test_result,
};
use ob_text::{Items, NoMemory, Text};
use std::alloc::Global;
use std::test::Fail;

fn app(alloc: Global) -> Result<BuildTargetIdentifier, NoMemory>
    ensures { IfOk result IsTarget }
{
    Ok(BuildTargetIdentifier {
        uri: owned(alloc, "file:///w/?id=app")?,
    })
}

fn texts(alloc: Global, text: &str) -> Result<Items<Text>, NoMemory>
    ensures { IfOk result (All IsUtf8) }
{
    one(alloc, owned(alloc, text)?)
}

fn targets(alloc: Global) -> Result<Items<BuildTargetIdentifier>, NoMemory>
    ensures { IfOk result (All IsTarget) }
{
    one(alloc, app(alloc)?)
}

fn target(alloc: Global) -> Result<BuildTarget, NoMemory>
    ensures { IfOk result HasBuildTargetTexts }
{
    Ok(BuildTarget {
        id: app(alloc)?,
        display_name: owned(alloc, "app")?,
        tags: texts(alloc, "application")?,
        language_ids: texts(alloc, "oberon")?,
        dependencies: targets(alloc)?,
        capabilities: BuildTargetCapabilities {
            can_compile: true,
            can_test: false,
            can_run: true,
        },
    })
}

fn prints_targets(alloc: Global, want: &str) -> Result<bool, Fail> {
    let answer = BuildTargetsResult {
        targets: one(alloc, target(alloc)?)?,
    };
    is_printed(alloc, &write_build_targets_result(alloc, &answer)?, want)
}

fn source(alloc: Global) -> Result<SourceItem, NoMemory>
    ensures { IfOk result HasSourceTexts }
{
    Ok(SourceItem {
        uri: owned(alloc, "file:///w/A.Mod")?,
        kind: SourceItemKind::File,
        generated: false,
    })
}

fn sources(alloc: Global) -> Result<SourcesItem, NoMemory>
    ensures { IfOk result HasSourcesTexts }
{
    let sources = one(alloc, source(alloc)?)?;
    Ok(SourcesItem {
        target: app(alloc)?,
        sources,
    })
}

fn prints_sources(alloc: Global, want: &str) -> Result<bool, Fail> {
    let answer = SourcesResult {
        items: one(alloc, sources(alloc)?)?,
    };
    is_printed(alloc, &write_sources_result(alloc, &answer)?, want)
}

fn prints_inverse(alloc: Global, want: &str) -> Result<bool, Fail> {
    let answer = InverseSourcesResult {
        targets: targets(alloc)?,
    };
    is_printed(alloc, &write_inverse_sources_result(alloc, &answer)?, want)
}

#[test]
fn answers_at_once(rt: HostRuntime) -> Result<(), Fail> {
    let alloc = rt.alloc();
    assert!(rt;
        prints_targets(
            alloc,
            "{\"targets\":[{\"capabilities\":{\"canCompile\":true,\"canRun\":true,\"canTest\":false},\"dependencies\":[{\"uri\":\"file:///w/?id=app\"}],\"displayName\":\"app\",\"id\":{\"uri\":\"file:///w/?id=app\"},\"languageIds\":[\"oberon\"],\"tags\":[\"application\"]}]}"
        )?
    );
    assert!(rt;
        prints_sources(
            alloc,
            "{\"items\":[{\"sources\":[{\"generated\":false,\"kind\":1,\"uri\":\"file:///w/A.Mod\"}],\"target\":{\"uri\":\"file:///w/?id=app\"}}]}"
        )?
    );
    assert!(rt; prints_inverse(alloc, "{\"targets\":[{\"uri\":\"file:///w/?id=app\"}]}")?);
    let cleaned = write_clean_cache_result(alloc, &CleanCacheResult { cleaned: true })?;
    assert!(rt; is_printed(alloc, &cleaned, "{\"cleaned\":true}")?);
    Ok(())
}

fn prints_compiled(alloc: Global, want: &str) -> Result<bool, Fail> {
    let answer = CompileResult {
        origin_id: None,
        status_code: StatusCode::Ok,
    };
    is_printed(alloc, &write_compile_result(alloc, &answer)?, want)
}

fn prints_tested(alloc: Global, want: &str) -> Result<bool, Fail> {
    let answer = TestResult {
        origin_id: Some(owned(alloc, "o")?),
        status_code: StatusCode::Error,
    };
    is_printed(alloc, &write_test_result(alloc, &answer)?, want)
}

fn prints_run(alloc: Global, want: &str) -> Result<bool, Fail> {
    let answer = RunResult {
        origin_id: Some(owned(alloc, "o")?),
        status_code: StatusCode::Cancelled,
    };
    is_printed(alloc, &write_run_result(alloc, &answer)?, want)
}

#[test]
fn answers_builds(rt: HostRuntime) -> Result<(), Fail> {
    let alloc = rt.alloc();
    assert!(rt; prints_compiled(alloc, "{\"statusCode\":1}")?);
    assert!(rt; prints_tested(alloc, "{\"originId\":\"o\",\"statusCode\":2}")?);
    assert!(rt; prints_run(alloc, "{\"originId\":\"o\",\"statusCode\":3}")?);
    Ok(())
}

fn task(alloc: Global) -> Result<TaskId, NoMemory>
    ensures { IfOk result HasTaskIdTexts }
{
    Ok(TaskId {
        id: owned(alloc, "r2.t1")?,
        parents: Some(texts(alloc, "r2")?),
    })
}

fn prints_start(alloc: Global, body: TaskStartBody, want: &str) -> Result<bool, Fail>
    requires { HasStartBodyTexts body }
{
    let params = TaskStartParams {
        task_id: task(alloc)?,
        message: None,
        body: Some(body),
    };
    is_printed(alloc, &write_task_start_params(alloc, &params)?, want)
}

fn prints_first_start(alloc: Global, want: &str) -> Result<bool, Fail> {
    let params = TaskStartParams {
        task_id: TaskId {
            id: owned(alloc, "r2")?,
            parents: None,
        },
        message: Some(owned(alloc, "m")?),
        body: None,
    };
    is_printed(alloc, &write_task_start_params(alloc, &params)?, want)
}

fn compile_started(alloc: Global) -> Result<TaskStartBody, NoMemory>
    ensures { IfOk result HasStartBodyTexts }
{
    let target = app(alloc)?;
    Ok(TaskStartBody::CompileTask(CompileTask { target }))
}

fn tests_started(alloc: Global) -> Result<TaskStartBody, NoMemory>
    ensures { IfOk result HasStartBodyTexts }
{
    let target = app(alloc)?;
    Ok(TaskStartBody::TestTask(TestTask { target }))
}

fn test_started(alloc: Global) -> Result<TaskStartBody, NoMemory>
    ensures { IfOk result HasStartBodyTexts }
{
    let display_name = owned(alloc, "T.TestA")?;
    Ok(TaskStartBody::TestStart(TestStart { display_name }))
}

#[test]
fn tells_starts(rt: HostRuntime) -> Result<(), Fail> {
    let alloc = rt.alloc();
    assert!(rt; prints_first_start(alloc, "{\"message\":\"m\",\"taskId\":{\"id\":\"r2\"}}")?);
    assert!(rt;
        prints_start(
            alloc,
            compile_started(alloc)?,
            "{\"data\":{\"target\":{\"uri\":\"file:///w/?id=app\"}},\"dataKind\":\"compile-task\",\"taskId\":{\"id\":\"r2.t1\",\"parents\":[\"r2\"]}}"
        )?
    );
    assert!(rt;
        prints_start(
            alloc,
            tests_started(alloc)?,
            "{\"data\":{\"target\":{\"uri\":\"file:///w/?id=app\"}},\"dataKind\":\"test-task\",\"taskId\":{\"id\":\"r2.t1\",\"parents\":[\"r2\"]}}"
        )?
    );
    assert!(rt;
        prints_start(
            alloc,
            test_started(alloc)?,
            "{\"data\":{\"displayName\":\"T.TestA\"},\"dataKind\":\"test-start\",\"taskId\":{\"id\":\"r2.t1\",\"parents\":[\"r2\"]}}"
        )?
    );
    Ok(())
}

fn prints_finish(alloc: Global, body: Option<TaskFinishBody>, want: &str) -> Result<bool, Fail>
    requires { IfSome body HasFinishBodyTexts }
{
    let params = TaskFinishParams {
        task_id: task(alloc)?,
        status: StatusCode::Cancelled,
        body,
    };
    is_printed(alloc, &write_task_finish_params(alloc, &params)?, want)
}

fn prints_report(alloc: Global, want: &str) -> Result<bool, Fail> {
    let report = CompileReport {
        target: app(alloc)?,
        origin_id: Some(owned(alloc, "o")?),
        errors: 2,
        warnings: 0,
        no_op: Some(true),
    };
    prints_finish(alloc, Some(TaskFinishBody::CompileReport(report)), want)
}

fn prints_test(alloc: Global, want: &str) -> Result<bool, Fail> {
    let finish = TestFinish {
        display_name: owned(alloc, "T.TestC")?,
        message: Some(owned(alloc, "out of steps")?),
        status: TestStatus::Failed,
    };
    prints_finish(alloc, Some(TaskFinishBody::TestFinish(finish)), want)
}

fn prints_tests(alloc: Global, want: &str) -> Result<bool, Fail> {
    let report = TestReport {
        target: app(alloc)?,
        passed: 1,
        failed: 3,
        ignored: 0,
        cancelled: 0,
        skipped: 0,
    };
    prints_finish(alloc, Some(TaskFinishBody::TestReport(report)), want)
}

#[test]
fn tells_finishes(rt: HostRuntime) -> Result<(), Fail> {
    let alloc = rt.alloc();
    assert!(rt;
        prints_finish(
            alloc,
            None,
            "{\"status\":3,\"taskId\":{\"id\":\"r2.t1\",\"parents\":[\"r2\"]}}"
        )?
    );
    assert!(rt;
        prints_report(
            alloc,
            "{\"data\":{\"errors\":2,\"noOp\":true,\"originId\":\"o\",\"target\":{\"uri\":\"file:///w/?id=app\"},\"warnings\":0},\"dataKind\":\"compile-report\",\"status\":3,\"taskId\":{\"id\":\"r2.t1\",\"parents\":[\"r2\"]}}"
        )?
    );
    assert!(rt;
        prints_test(
            alloc,
            "{\"data\":{\"displayName\":\"T.TestC\",\"message\":\"out of steps\",\"status\":2},\"dataKind\":\"test-finish\",\"status\":3,\"taskId\":{\"id\":\"r2.t1\",\"parents\":[\"r2\"]}}"
        )?
    );
    assert!(rt;
        prints_tests(
            alloc,
            "{\"data\":{\"cancelled\":0,\"failed\":3,\"ignored\":0,\"passed\":1,\"skipped\":0,\"target\":{\"uri\":\"file:///w/?id=app\"}},\"dataKind\":\"test-report\",\"status\":3,\"taskId\":{\"id\":\"r2.t1\",\"parents\":[\"r2\"]}}"
        )?
    );
    Ok(())
}

fn prints_line(alloc: Global, want: &str) -> Result<bool, Fail> {
    let params = LogMessageParams {
        kind: MessageType::Log,
        origin_id: None,
        message: owned(alloc, "1")?,
    };
    is_printed(alloc, &write_log_message_params(alloc, &params)?, want)
}

fn prints_change(alloc: Global, want: &str) -> Result<bool, Fail> {
    let event = BuildTargetEvent {
        target: app(alloc)?,
        kind: BuildTargetEventKind::Deleted,
    };
    let params = DidChangeParams {
        changes: one(alloc, event)?,
    };
    is_printed(alloc, &write_did_change_params(alloc, &params)?, want)
}

#[test]
fn tells_lines_and_changes(rt: HostRuntime) -> Result<(), Fail> {
    let alloc = rt.alloc();
    assert!(rt; prints_line(alloc, "{\"message\":\"1\",\"type\":4}")?);
    assert!(rt;
        prints_change(
            alloc,
            "{\"changes\":[{\"kind\":3,\"target\":{\"uri\":\"file:///w/?id=app\"}}]}"
        )?
    );
    Ok(())
}
