//! Values of the protocol.

use pb_adapter_values::{
    capabilities, no_scopes, operands, result_body, saying_body, scopes, stopped_body,
    variables_body,
};
use pb_base::NoMemory;
use serde_json::Value;

/// Whether the text of a value is this.
fn reads(rt: HostRuntime, value: &Value, wanted: &str) -> bool {
    match value.to_vec(rt.alloc()) {
        Ok(text) => text.as_slice() == wanted.as_bytes(),
        Err(_) => false,
    }
}

#[test]
fn moves_are_told(rt: HostRuntime) -> Result<(), NoMemory> {
    let stopped = stopped_body(rt.alloc(), 7, "step", 66)?;
    assert!(rt;
        reads(
            rt,
            &stopped,
            "{\"allThreadsStopped\":true,\"description\":\"position 7\",\"reason\":\"step\",\"threadId\":66}"
        )
    );
    let saying = saying_body(rt.alloc(), 7, "waits", 66, b"rest p q\n")?;
    assert!(rt;
        reads(
            rt,
            &saying,
            "{\"allThreadsStopped\":true,\"description\":\"position 7\",\"reason\":\"waits\",\"text\":\"rest p q\\n\",\"threadId\":66}"
        )
    );
    let result = result_body(rt.alloc(), b"at 7\n")?;
    assert!(rt;
        reads(
            rt,
            &result,
            "{\"result\":\"at 7\\n\",\"variablesReference\":0}"
        )
    );
    Ok(())
}

#[test]
fn scopes_and_operands_are_told(rt: HostRuntime) -> Result<(), NoMemory> {
    let some = scopes(rt.alloc(), 1, 2)?;
    assert!(rt;
        reads(
            rt,
            &some,
            "{\"scopes\":[{\"expensive\":false,\"name\":\"Integers\",\"variablesReference\":2},{\"expensive\":false,\"name\":\"Operands\",\"variablesReference\":196},{\"expensive\":false,\"name\":\"Loans\",\"variablesReference\":66},{\"expensive\":false,\"name\":\"Cash\",\"variablesReference\":129}]}"
        )
    );
    let none = no_scopes(rt.alloc())?;
    assert!(rt; reads(rt, &none, "{\"scopes\":[]}"));
    let list = variables_body(rt.alloc(), operands(rt.alloc(), [5, -6].as_slice())?)?;
    assert!(rt;
        reads(
            rt,
            &list,
            "{\"variables\":[{\"name\":\"0\",\"value\":\"5\",\"variablesReference\":0},{\"name\":\"1\",\"value\":\"-6\",\"variablesReference\":0}]}"
        )
    );
    Ok(())
}

#[test]
fn capabilities_are_told(rt: HostRuntime) -> Result<(), NoMemory> {
    let told = capabilities(rt.alloc())?;
    assert!(rt;
        reads(
            rt,
            &told,
            "{\"exceptionBreakpointFilters\":[{\"filter\":\"events\",\"label\":\"Events\"}],\"supportsConfigurationDoneRequest\":true,\"supportsRestartRequest\":true,\"supportsStepBack\":true,\"supportsTerminateRequest\":true}"
        )
    );
    Ok(())
}
