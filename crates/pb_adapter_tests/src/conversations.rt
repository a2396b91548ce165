//! Conversations with the adapter, as bytes.

use pb_adapter_engine::adapter_engine;
use pb_base::{FaultyInput, FaultyOutput, MemoryInput, NoMemory};
use pb_command_io::Status;
use pb_conversations::Said;
use pb_frames::write_frame;
use std::alloc::Global;

/// Contents of messages, and those that answer them.
struct Case {
    asked: &'static [&'static str],
    said: &'static [&'static str],
}

const CASES: [Case; 6] = [
    // Before a launch.
    Case {
        asked: &[
            "{\"seq\":1,\"type\":\"request\",\"command\":\"initialize\",\"arguments\":{}}",
            "{\"seq\":7,\"type\":\"request\",\"command\":\"threads\"}",
            "{\"seq\":8,\"command\":\"launch\",\"arguments\":{\"text\":5}}",
            "{\"seq\":9,\"command\":\"launch\",\"arguments\":{\"program\":\"a.pb\",\"text\":\"process p begin x := 1 end\"}}",
            "{\"seq\":\"9\",\"command\":\"threads\"}",
            "{\"seq\":9",
            "{\"seq\":10,\"command\":\"disconnect\"}",
            "{\"seq\":11,\"command\":\"threads\"}",
        ],
        said: &[
            "{\"body\":{\"exceptionBreakpointFilters\":[{\"filter\":\"events\",\"label\":\"Events\"}],\"supportsConfigurationDoneRequest\":true,\"supportsRestartRequest\":true,\"supportsStepBack\":true,\"supportsTerminateRequest\":true},\"command\":\"initialize\",\"request_seq\":1,\"seq\":1,\"success\":true,\"type\":\"response\"}",
            "{\"command\":\"threads\",\"message\":\"no text is launched\",\"request_seq\":7,\"seq\":2,\"success\":false,\"type\":\"response\"}",
            "{\"command\":\"launch\",\"message\":\"there is no text\",\"request_seq\":8,\"seq\":3,\"success\":false,\"type\":\"response\"}",
            "{\"command\":\"launch\",\"message\":\"refused N3 at 16\\nerror N3: integer x is not declared in process p\\n  --> line 1, column 17\\n  |\\n1 | process p begin x := 1 end\\n  |                 ^\\n  = hint: declare it after the first begin of the process: integer x;\",\"request_seq\":9,\"seq\":4,\"success\":false,\"type\":\"response\"}",
            "{\"command\":\"\",\"message\":\"this is not a request\",\"request_seq\":0,\"seq\":5,\"success\":false,\"type\":\"response\"}",
            "{\"command\":\"\",\"message\":\"this is not JSON\",\"request_seq\":0,\"seq\":6,\"success\":false,\"type\":\"response\"}",
            "{\"body\":null,\"command\":\"disconnect\",\"request_seq\":10,\"seq\":7,\"success\":true,\"type\":\"response\"}",
        ],
    },
    // A text with pick lines: breakpoints forward and backward, a frame, integers, loans and cash.
    Case {
        asked: &[
            "{\"seq\":1,\"command\":\"launch\",\"arguments\":{\"program\":\"a.pb\",\"text\":\"resource tape = 3;\\nprocess p\\nbegin\\ninteger x;\\nhold 2 of tape do\\nx := 5;\\nprint x\\nod\\nend\\n%%\\np.0 5\\n\"}}",
            "{\"seq\":2,\"command\":\"setBreakpoints\",\"arguments\":{\"breakpoints\":[{\"line\":6},{\"line\":7},{\"line\":1}]}}",
            "{\"seq\":3,\"command\":\"configurationDone\"}",
            "{\"seq\":4,\"command\":\"continue\",\"arguments\":{\"threadId\":1}}",
            "{\"seq\":5,\"command\":\"stackTrace\",\"arguments\":{\"threadId\":1}}",
            "{\"seq\":6,\"command\":\"variables\",\"arguments\":{\"variablesReference\":1}}",
            "{\"seq\":7,\"command\":\"variables\",\"arguments\":{\"variablesReference\":65}}",
            "{\"seq\":8,\"command\":\"variables\",\"arguments\":{\"variablesReference\":129}}",
            "{\"seq\":9,\"command\":\"variables\",\"arguments\":{\"variablesReference\":66}}",
            "{\"seq\":10,\"command\":\"continue\",\"arguments\":{\"threadId\":1}}",
            "{\"seq\":11,\"command\":\"variables\",\"arguments\":{\"variablesReference\":1}}",
            "{\"seq\":12,\"command\":\"reverseContinue\",\"arguments\":{\"threadId\":1}}",
            "{\"seq\":13,\"command\":\"next\",\"arguments\":{\"threadId\":1}}",
            "{\"seq\":14,\"command\":\"stepBack\",\"arguments\":{\"threadId\":1}}",
            "{\"seq\":15,\"command\":\"stackTrace\",\"arguments\":{\"threadId\":2}}",
            "{\"seq\":16,\"command\":\"scopes\",\"arguments\":{\"frameId\":1}}",
            "{\"seq\":17,\"command\":\"threads\"}",
            "{\"seq\":18,\"command\":\"disconnect\"}",
        ],
        said: &[
            "{\"body\":null,\"command\":\"launch\",\"request_seq\":1,\"seq\":1,\"success\":true,\"type\":\"response\"}",
            "{\"body\":null,\"event\":\"initialized\",\"seq\":2,\"type\":\"event\"}",
            "{\"body\":{\"breakpoints\":[{\"line\":6,\"verified\":true},{\"line\":7,\"verified\":true},{\"line\":1,\"verified\":false}]},\"command\":\"setBreakpoints\",\"request_seq\":2,\"seq\":3,\"success\":true,\"type\":\"response\"}",
            "{\"body\":null,\"command\":\"configurationDone\",\"request_seq\":3,\"seq\":4,\"success\":true,\"type\":\"response\"}",
            "{\"body\":{\"allThreadsStopped\":true,\"description\":\"position 0\",\"reason\":\"entry\",\"threadId\":1},\"event\":\"stopped\",\"seq\":5,\"type\":\"event\"}",
            "{\"body\":null,\"command\":\"continue\",\"request_seq\":4,\"seq\":6,\"success\":true,\"type\":\"response\"}",
            "{\"body\":{\"allThreadsStopped\":true,\"description\":\"position 1\",\"reason\":\"breakpoint\",\"threadId\":1},\"event\":\"stopped\",\"seq\":7,\"type\":\"event\"}",
            "{\"body\":{\"stackFrames\":[{\"column\":1,\"id\":1,\"line\":6,\"name\":\"p.0\",\"source\":{\"path\":\"a.pb\"}}]},\"command\":\"stackTrace\",\"request_seq\":5,\"seq\":8,\"success\":true,\"type\":\"response\"}",
            "{\"body\":{\"variables\":[{\"name\":\"x\",\"value\":\"0\",\"variablesReference\":0}]},\"command\":\"variables\",\"request_seq\":6,\"seq\":9,\"success\":true,\"type\":\"response\"}",
            "{\"body\":{\"variables\":[{\"name\":\"tape\",\"value\":\"2 of claim 2\",\"variablesReference\":0}]},\"command\":\"variables\",\"request_seq\":7,\"seq\":10,\"success\":true,\"type\":\"response\"}",
            "{\"body\":{\"variables\":[{\"name\":\"tape\",\"value\":\"1\",\"variablesReference\":0}]},\"command\":\"variables\",\"request_seq\":8,\"seq\":11,\"success\":true,\"type\":\"response\"}",
            "{\"body\":{\"variables\":[]},\"command\":\"variables\",\"request_seq\":9,\"seq\":12,\"success\":true,\"type\":\"response\"}",
            "{\"body\":null,\"command\":\"continue\",\"request_seq\":10,\"seq\":13,\"success\":true,\"type\":\"response\"}",
            "{\"body\":{\"allThreadsStopped\":true,\"description\":\"position 3\",\"reason\":\"breakpoint\",\"threadId\":1},\"event\":\"stopped\",\"seq\":14,\"type\":\"event\"}",
            "{\"body\":{\"variables\":[{\"name\":\"x\",\"value\":\"5\",\"variablesReference\":0}]},\"command\":\"variables\",\"request_seq\":11,\"seq\":15,\"success\":true,\"type\":\"response\"}",
            "{\"body\":null,\"command\":\"reverseContinue\",\"request_seq\":12,\"seq\":16,\"success\":true,\"type\":\"response\"}",
            "{\"body\":{\"allThreadsStopped\":true,\"description\":\"position 1\",\"reason\":\"breakpoint\",\"threadId\":1},\"event\":\"stopped\",\"seq\":17,\"type\":\"event\"}",
            "{\"body\":null,\"command\":\"next\",\"request_seq\":13,\"seq\":18,\"success\":true,\"type\":\"response\"}",
            "{\"body\":{\"allThreadsStopped\":true,\"description\":\"position 3\",\"reason\":\"step\",\"threadId\":1},\"event\":\"stopped\",\"seq\":19,\"type\":\"event\"}",
            "{\"body\":null,\"command\":\"stepBack\",\"request_seq\":14,\"seq\":20,\"success\":true,\"type\":\"response\"}",
            "{\"body\":{\"allThreadsStopped\":true,\"description\":\"position 1\",\"reason\":\"step\",\"threadId\":1},\"event\":\"stopped\",\"seq\":21,\"type\":\"event\"}",
            "{\"body\":{\"stackFrames\":[]},\"command\":\"stackTrace\",\"request_seq\":15,\"seq\":22,\"success\":true,\"type\":\"response\"}",
            "{\"body\":{\"scopes\":[{\"expensive\":false,\"name\":\"Integers\",\"variablesReference\":1},{\"expensive\":false,\"name\":\"Operands\",\"variablesReference\":130},{\"expensive\":false,\"name\":\"Loans\",\"variablesReference\":65},{\"expensive\":false,\"name\":\"Cash\",\"variablesReference\":129}]},\"command\":\"scopes\",\"request_seq\":16,\"seq\":23,\"success\":true,\"type\":\"response\"}",
            "{\"body\":{\"threads\":[{\"id\":1,\"name\":\"p.0\"}]},\"command\":\"threads\",\"request_seq\":17,\"seq\":24,\"success\":true,\"type\":\"response\"}",
            "{\"body\":null,\"command\":\"disconnect\",\"request_seq\":18,\"seq\":25,\"success\":true,\"type\":\"response\"}",
        ],
    },
    // A pick that the banker refuses is told with the reason, and nothing changes.
    Case {
        asked: &[
            "{\"seq\":1,\"command\":\"launch\",\"arguments\":{\"program\":\"a.pb\",\"text\":\"resource a = 1;\\nresource b = 1;\\nprocess p begin hold 1 of a do\\nhold 1 of b do skip od od end\\nprocess q begin hold 1 of b do\\nhold 1 of a do skip od od end\"}}",
            "{\"seq\":2,\"command\":\"evaluate\",\"arguments\":{\"expression\":\"pick p.0\"}}",
            "{\"seq\":3,\"command\":\"evaluate\",\"arguments\":{\"expression\":\"pick q.0\"}}",
            "{\"seq\":4,\"command\":\"variables\",\"arguments\":{\"variablesReference\":66}}",
            "{\"seq\":9,\"command\":\"next\",\"arguments\":{\"threadId\":65}}",
            "{\"seq\":10,\"command\":\"next\",\"arguments\":{\"threadId\":1}}",
            "{\"seq\":11,\"command\":\"next\",\"arguments\":{\"threadId\":129}}",
            "{\"seq\":5,\"command\":\"evaluate\",\"arguments\":{}}",
            "{\"seq\":6,\"command\":\"launch\",\"arguments\":{\"program\":\"a.pb\",\"text\":\"resource a = 1;\\nresource b = 1;\\nprocess p begin hold 1 of a do\\nhold 1 of b do skip od od end\\nprocess q begin hold 1 of b do\\nhold 1 of a do skip od od end\"}}",
            "{\"seq\":7,\"command\":\"fly\"}",
            "{\"seq\":8,\"command\":\"disconnect\"}",
        ],
        said: &[
            "{\"body\":null,\"command\":\"launch\",\"request_seq\":1,\"seq\":1,\"success\":true,\"type\":\"response\"}",
            "{\"body\":null,\"event\":\"initialized\",\"seq\":2,\"type\":\"event\"}",
            "{\"body\":{\"result\":\"at 1 p.0 grant 1 a\\n\",\"variablesReference\":0},\"command\":\"evaluate\",\"request_seq\":2,\"seq\":3,\"success\":true,\"type\":\"response\"}",
            "{\"body\":{\"allThreadsStopped\":true,\"description\":\"position 1\",\"reason\":\"goto\",\"threadId\":1},\"event\":\"stopped\",\"seq\":4,\"type\":\"event\"}",
            "{\"body\":{\"result\":\"rest p q\\n\",\"variablesReference\":0},\"command\":\"evaluate\",\"request_seq\":3,\"seq\":5,\"success\":true,\"type\":\"response\"}",
            "{\"body\":{\"variables\":[{\"name\":\"a\",\"value\":\"0 of claim 1\",\"variablesReference\":0},{\"name\":\"b\",\"value\":\"0 of claim 1\",\"variablesReference\":0}]},\"command\":\"variables\",\"request_seq\":4,\"seq\":6,\"success\":true,\"type\":\"response\"}",
            "{\"body\":null,\"command\":\"next\",\"request_seq\":9,\"seq\":7,\"success\":true,\"type\":\"response\"}",
            "{\"body\":{\"allThreadsStopped\":true,\"description\":\"position 1\",\"reason\":\"waits\",\"text\":\"rest p q\\n\",\"threadId\":65},\"event\":\"stopped\",\"seq\":8,\"type\":\"event\"}",
            "{\"body\":null,\"command\":\"next\",\"request_seq\":10,\"seq\":9,\"success\":true,\"type\":\"response\"}",
            "{\"body\":{\"allThreadsStopped\":true,\"description\":\"position 2\",\"reason\":\"step\",\"text\":\"at 2 p.0 grant 1 b\\n\",\"threadId\":1},\"event\":\"stopped\",\"seq\":10,\"type\":\"event\"}",
            "{\"body\":null,\"command\":\"next\",\"request_seq\":11,\"seq\":11,\"success\":true,\"type\":\"response\"}",
            "{\"body\":{\"allThreadsStopped\":true,\"description\":\"position 2\",\"reason\":\"waits\",\"text\":\"refused G4\\n\",\"threadId\":129},\"event\":\"stopped\",\"seq\":12,\"type\":\"event\"}",
            "{\"command\":\"evaluate\",\"message\":\"there is no expression\",\"request_seq\":5,\"seq\":13,\"success\":false,\"type\":\"response\"}",
            "{\"command\":\"launch\",\"message\":\"a text is launched already\",\"request_seq\":6,\"seq\":14,\"success\":false,\"type\":\"response\"}",
            "{\"command\":\"fly\",\"message\":\"this request is not known\",\"request_seq\":7,\"seq\":15,\"success\":false,\"type\":\"response\"}",
            "{\"body\":null,\"command\":\"disconnect\",\"request_seq\":8,\"seq\":16,\"success\":true,\"type\":\"response\"}",
        ],
    },
    // The cash alone lends it.
    Case {
        asked: &[
            "{\"seq\":1,\"command\":\"launch\",\"arguments\":{\"program\":\"a.pb\",\"text\":\"resource a = 1;\\nresource b = 1;\\nprocess p begin hold 1 of a do\\nhold 1 of b do skip od od end\\nprocess q begin hold 1 of b do\\nhold 1 of a do skip od od end\",\"lend\":\"bank\"}}",
            "{\"seq\":2,\"command\":\"launch\",\"arguments\":{\"program\":\"a.pb\",\"text\":\"resource a = 1;\\nresource b = 1;\\nprocess p begin hold 1 of a do\\nhold 1 of b do skip od od end\\nprocess q begin hold 1 of b do\\nhold 1 of a do skip od od end\",\"lend\":\"cash\"}}",
            "{\"seq\":3,\"command\":\"evaluate\",\"arguments\":{\"expression\":\"pick p.0\"}}",
            "{\"seq\":4,\"command\":\"evaluate\",\"arguments\":{\"expression\":\"pick q.0\"}}",
            "{\"seq\":5,\"command\":\"variables\",\"arguments\":{\"variablesReference\":66}}",
            "{\"seq\":7,\"command\":\"continue\"}",
            "{\"seq\":6,\"command\":\"disconnect\"}",
        ],
        said: &[
            "{\"command\":\"launch\",\"message\":\"lend is banker or cash\",\"request_seq\":1,\"seq\":1,\"success\":false,\"type\":\"response\"}",
            "{\"body\":null,\"command\":\"launch\",\"request_seq\":2,\"seq\":2,\"success\":true,\"type\":\"response\"}",
            "{\"body\":null,\"event\":\"initialized\",\"seq\":3,\"type\":\"event\"}",
            "{\"body\":{\"result\":\"at 1 p.0 grant 1 a\\n\",\"variablesReference\":0},\"command\":\"evaluate\",\"request_seq\":3,\"seq\":4,\"success\":true,\"type\":\"response\"}",
            "{\"body\":{\"allThreadsStopped\":true,\"description\":\"position 1\",\"reason\":\"goto\",\"threadId\":1},\"event\":\"stopped\",\"seq\":5,\"type\":\"event\"}",
            "{\"body\":{\"result\":\"at 2 q.0 grant 1 b\\n\",\"variablesReference\":0},\"command\":\"evaluate\",\"request_seq\":4,\"seq\":6,\"success\":true,\"type\":\"response\"}",
            "{\"body\":{\"allThreadsStopped\":true,\"description\":\"position 2\",\"reason\":\"goto\",\"threadId\":65},\"event\":\"stopped\",\"seq\":7,\"type\":\"event\"}",
            "{\"body\":{\"variables\":[{\"name\":\"a\",\"value\":\"0 of claim 1\",\"variablesReference\":0},{\"name\":\"b\",\"value\":\"1 of claim 1\",\"variablesReference\":0}]},\"command\":\"variables\",\"request_seq\":5,\"seq\":8,\"success\":true,\"type\":\"response\"}",
            "{\"body\":null,\"command\":\"continue\",\"request_seq\":7,\"seq\":9,\"success\":true,\"type\":\"response\"}",
            "{\"body\":{\"allThreadsStopped\":true,\"description\":\"position 2\",\"reason\":\"waits\",\"text\":\"p.0 waits b holder q\\nq.0 waits a holder p\\n\",\"threadId\":65},\"event\":\"stopped\",\"seq\":10,\"type\":\"event\"}",
            "{\"body\":null,\"command\":\"disconnect\",\"request_seq\":6,\"seq\":11,\"success\":true,\"type\":\"response\"}",
        ],
    },
    // Stops at events, if the client wants that, and at breakpoints.
    Case {
        asked: &[
            "{\"seq\":1,\"command\":\"launch\",\"arguments\":{\"program\":\"a.pb\",\"text\":\"process p begin\\nprint 7;\\nprint 8;\\nprint 9 end\\n%%\\np.0 7\\n\"}}",
            "{\"seq\":2,\"command\":\"setExceptionBreakpoints\",\"arguments\":{\"filters\":[\"faults\",\"events\"]}}",
            "{\"seq\":3,\"command\":\"continue\"}",
            "{\"seq\":4,\"command\":\"setBreakpoints\",\"arguments\":{\"breakpoints\":[{\"line\":4}]}}",
            "{\"seq\":5,\"command\":\"continue\"}",
            "{\"seq\":6,\"command\":\"setExceptionBreakpoints\",\"arguments\":{\"filters\":[\"faults\"]}}",
            "{\"seq\":7,\"command\":\"restart\"}",
            "{\"seq\":8,\"command\":\"continue\"}",
            "{\"seq\":9,\"command\":\"disconnect\"}",
        ],
        said: &[
            "{\"body\":null,\"command\":\"launch\",\"request_seq\":1,\"seq\":1,\"success\":true,\"type\":\"response\"}",
            "{\"body\":null,\"event\":\"initialized\",\"seq\":2,\"type\":\"event\"}",
            "{\"body\":null,\"command\":\"setExceptionBreakpoints\",\"request_seq\":2,\"seq\":3,\"success\":true,\"type\":\"response\"}",
            "{\"body\":null,\"command\":\"continue\",\"request_seq\":3,\"seq\":4,\"success\":true,\"type\":\"response\"}",
            "{\"body\":{\"allThreadsStopped\":true,\"description\":\"position 2\",\"reason\":\"event\",\"text\":\"at 2 p.0 print 7\\n\",\"threadId\":1},\"event\":\"stopped\",\"seq\":5,\"type\":\"event\"}",
            "{\"body\":{\"breakpoints\":[{\"line\":4,\"verified\":true}]},\"command\":\"setBreakpoints\",\"request_seq\":4,\"seq\":6,\"success\":true,\"type\":\"response\"}",
            "{\"body\":null,\"command\":\"continue\",\"request_seq\":5,\"seq\":7,\"success\":true,\"type\":\"response\"}",
            "{\"body\":{\"allThreadsStopped\":true,\"description\":\"position 4\",\"reason\":\"event\",\"text\":\"at 4 p.0 print 8\\n\",\"threadId\":1},\"event\":\"stopped\",\"seq\":8,\"type\":\"event\"}",
            "{\"body\":null,\"command\":\"setExceptionBreakpoints\",\"request_seq\":6,\"seq\":9,\"success\":true,\"type\":\"response\"}",
            "{\"body\":null,\"command\":\"restart\",\"request_seq\":7,\"seq\":10,\"success\":true,\"type\":\"response\"}",
            "{\"body\":{\"allThreadsStopped\":true,\"description\":\"position 0\",\"reason\":\"entry\",\"threadId\":1},\"event\":\"stopped\",\"seq\":11,\"type\":\"event\"}",
            "{\"body\":null,\"command\":\"continue\",\"request_seq\":8,\"seq\":12,\"success\":true,\"type\":\"response\"}",
            "{\"body\":{\"allThreadsStopped\":true,\"description\":\"position 4\",\"reason\":\"breakpoint\",\"threadId\":1},\"event\":\"stopped\",\"seq\":13,\"type\":\"event\"}",
            "{\"body\":null,\"command\":\"disconnect\",\"request_seq\":9,\"seq\":14,\"success\":true,\"type\":\"response\"}",
        ],
    },
    // A seed draws the picks.
    Case {
        asked: &[
            "{\"seq\":1,\"command\":\"launch\",\"arguments\":{\"program\":\"a.pb\",\"text\":\"process p begin print 7 end\",\"seed\":1}}",
            "{\"seq\":2,\"command\":\"continue\"}",
            "{\"seq\":3,\"command\":\"restart\"}",
            "{\"seq\":4,\"command\":\"terminate\"}",
            "{\"seq\":5,\"command\":\"disconnect\"}",
        ],
        said: &[
            "{\"body\":null,\"command\":\"launch\",\"request_seq\":1,\"seq\":1,\"success\":true,\"type\":\"response\"}",
            "{\"body\":null,\"event\":\"initialized\",\"seq\":2,\"type\":\"event\"}",
            "{\"body\":null,\"command\":\"continue\",\"request_seq\":2,\"seq\":3,\"success\":true,\"type\":\"response\"}",
            "{\"body\":{\"allThreadsStopped\":true,\"description\":\"position 3\",\"reason\":\"end\",\"text\":\"no circle\\n\",\"threadId\":1},\"event\":\"stopped\",\"seq\":4,\"type\":\"event\"}",
            "{\"body\":null,\"command\":\"restart\",\"request_seq\":3,\"seq\":5,\"success\":true,\"type\":\"response\"}",
            "{\"body\":{\"allThreadsStopped\":true,\"description\":\"position 0\",\"reason\":\"entry\",\"threadId\":1},\"event\":\"stopped\",\"seq\":6,\"type\":\"event\"}",
            "{\"body\":null,\"command\":\"terminate\",\"request_seq\":4,\"seq\":7,\"success\":true,\"type\":\"response\"}",
            "{\"body\":null,\"event\":\"terminated\",\"seq\":8,\"type\":\"event\"}",
            "{\"body\":null,\"command\":\"disconnect\",\"request_seq\":5,\"seq\":9,\"success\":true,\"type\":\"response\"}",
        ],
    },
];

/// A client that counts from 0, and what is refused.
const REFUSALS: [Case; 2] = [
    // A client that counts from 0, launches that are refused, another text, and expressions that are refused.
    Case {
        asked: &[
            "{\"seq\":1,\"type\":\"request\",\"command\":\"initialize\",\"arguments\":{\"linesStartAt1\":false,\"columnsStartAt1\":false}}",
            "{\"seq\":2,\"type\":\"request\",\"command\":\"launch\",\"arguments\":{\"program\":\"a.pb\",\"text\":\"process p begin\\nprint 7;\\nprint 8;\\nprint 9 end\\n%%\\np.0 7\\n\",\"seed\":\"7\"}}",
            "{\"seq\":3,\"type\":\"request\",\"command\":\"launch\",\"arguments\":{\"program\":\"a.pb\",\"text\":\"process p begin\\nprint 7;\\nprint 8;\\nprint 9 end\\n%%\\np.0 7\\n\",\"seed\":-1}}",
            "{\"seq\":4,\"type\":\"request\",\"command\":\"launch\",\"arguments\":{\"text\":\"process p begin\\nprint 7;\\nprint 8;\\nprint 9 end\\n%%\\np.0 7\\n\"}}",
            "{\"seq\":5,\"type\":\"request\",\"command\":\"launch\",\"arguments\":{\"program\":\"a.pb\",\"text\":\"process p begin\\nprint 7;\\nprint 8;\\nprint 9 end\\n%%\\np.0 7\\n\",\"lend\":5}}",
            "{\"seq\":6,\"type\":\"request\",\"command\":\"launch\",\"arguments\":{\"program\":\"a.pb\",\"text\":\"process p begin skip end\\n%%\\np.0 9\\n\"}}",
            "{\"seq\":7,\"type\":\"request\",\"command\":\"launch\",\"arguments\":{\"program\":\"a.pb\",\"text\":\"process p begin\\nprint 7;\\nprint 8;\\nprint 9 end\\n%%\\np.0 7\\n\",\"seed\":null}}",
            "{\"seq\":8,\"type\":\"request\",\"command\":\"setBreakpoints\",\"arguments\":{\"source\":{\"path\":\"a.pb\"},\"breakpoints\":[{\"line\":3}]}}",
            "{\"seq\":9,\"type\":\"request\",\"command\":\"setBreakpoints\",\"arguments\":{\"source\":{\"path\":\"b.pb\"},\"breakpoints\":[{\"line\":1}]}}",
            "{\"seq\":10,\"type\":\"request\",\"command\":\"continue\",\"arguments\":{}}",
            "{\"seq\":11,\"type\":\"request\",\"command\":\"stackTrace\",\"arguments\":{\"threadId\":1}}",
            "{\"seq\":12,\"type\":\"request\",\"command\":\"evaluate\",\"arguments\":{\"expression\":\"to 99\"}}",
            "{\"seq\":13,\"type\":\"request\",\"command\":\"evaluate\",\"arguments\":{\"expression\":\"to 0\\nto 99\"}}",
            "{\"seq\":14,\"type\":\"request\",\"command\":\"disconnect\",\"arguments\":{}}",
        ],
        said: &[
            "{\"body\":{\"exceptionBreakpointFilters\":[{\"filter\":\"events\",\"label\":\"Events\"}],\"supportsConfigurationDoneRequest\":true,\"supportsRestartRequest\":true,\"supportsStepBack\":true,\"supportsTerminateRequest\":true},\"command\":\"initialize\",\"request_seq\":1,\"seq\":1,\"success\":true,\"type\":\"response\"}",
            "{\"command\":\"launch\",\"message\":\"seed is not in 0..=18446744073709551615\",\"request_seq\":2,\"seq\":2,\"success\":false,\"type\":\"response\"}",
            "{\"command\":\"launch\",\"message\":\"seed is not in 0..=18446744073709551615\",\"request_seq\":3,\"seq\":3,\"success\":false,\"type\":\"response\"}",
            "{\"command\":\"launch\",\"message\":\"there is no program: the path of the text\",\"request_seq\":4,\"seq\":4,\"success\":false,\"type\":\"response\"}",
            "{\"command\":\"launch\",\"message\":\"lend is banker or cash\",\"request_seq\":5,\"seq\":5,\"success\":false,\"type\":\"response\"}",
            "{\"command\":\"launch\",\"message\":\"refused H1 at 1\\nerror H1: p.0 cannot make a pick after 1 pick\\n  --> pick line 1, column 1\\n  |\\n1 | p.0 9\\n  | ^\\n  = 1 of the 9 picks of this line was made\\n  = the arm has ended\\n  = line 3 of the input\\n  = hint: leave the pick out, or make others before it; without it and those after it, debug shows the run up to here\",\"request_seq\":6,\"seq\":6,\"success\":false,\"type\":\"response\"}",
            "{\"body\":null,\"command\":\"launch\",\"request_seq\":7,\"seq\":7,\"success\":true,\"type\":\"response\"}",
            "{\"body\":null,\"event\":\"initialized\",\"seq\":8,\"type\":\"event\"}",
            "{\"body\":{\"breakpoints\":[{\"line\":3,\"verified\":true}]},\"command\":\"setBreakpoints\",\"request_seq\":8,\"seq\":9,\"success\":true,\"type\":\"response\"}",
            "{\"body\":{\"breakpoints\":[{\"line\":1,\"message\":\"this is not the text that is launched\",\"verified\":false}]},\"command\":\"setBreakpoints\",\"request_seq\":9,\"seq\":10,\"success\":true,\"type\":\"response\"}",
            "{\"body\":null,\"command\":\"continue\",\"request_seq\":10,\"seq\":11,\"success\":true,\"type\":\"response\"}",
            "{\"body\":{\"allThreadsStopped\":true,\"description\":\"position 4\",\"reason\":\"breakpoint\",\"threadId\":1},\"event\":\"stopped\",\"seq\":12,\"type\":\"event\"}",
            "{\"body\":{\"stackFrames\":[{\"column\":0,\"id\":1,\"line\":3,\"name\":\"p.0\",\"source\":{\"path\":\"a.pb\"}}]},\"command\":\"stackTrace\",\"request_seq\":11,\"seq\":13,\"success\":true,\"type\":\"response\"}",
            "{\"command\":\"evaluate\",\"message\":\"refused G1\",\"request_seq\":12,\"seq\":14,\"success\":false,\"type\":\"response\"}",
            "{\"command\":\"evaluate\",\"message\":\"at 0\\nrefused G1\",\"request_seq\":13,\"seq\":15,\"success\":false,\"type\":\"response\"}",
            "{\"body\":{\"allThreadsStopped\":true,\"description\":\"position 0\",\"reason\":\"goto\",\"threadId\":1},\"event\":\"stopped\",\"seq\":16,\"type\":\"event\"}",
            "{\"body\":null,\"command\":\"disconnect\",\"request_seq\":14,\"seq\":17,\"success\":true,\"type\":\"response\"}",
        ],
    },
    // The value of an integer whose name is `refused` is no refusal.
    Case {
        asked: &[
            "{\"seq\":1,\"type\":\"request\",\"command\":\"launch\",\"arguments\":{\"program\":\"a.pb\",\"text\":\"process p begin integer refused; refused := 7 end\"}}",
            "{\"seq\":2,\"type\":\"request\",\"command\":\"evaluate\",\"arguments\":{\"expression\":\"vars p\"}}",
            "{\"seq\":3,\"type\":\"request\",\"command\":\"evaluate\",\"arguments\":{\"expression\":\"vars p\\nvars q\"}}",
            "{\"seq\":4,\"type\":\"request\",\"command\":\"disconnect\",\"arguments\":{}}",
        ],
        said: &[
            "{\"body\":null,\"command\":\"launch\",\"request_seq\":1,\"seq\":1,\"success\":true,\"type\":\"response\"}",
            "{\"body\":null,\"event\":\"initialized\",\"seq\":2,\"type\":\"event\"}",
            "{\"body\":{\"result\":\"refused 0\\n\",\"variablesReference\":0},\"command\":\"evaluate\",\"request_seq\":2,\"seq\":3,\"success\":true,\"type\":\"response\"}",
            "{\"command\":\"evaluate\",\"message\":\"refused 0\\nrefused G2\",\"request_seq\":3,\"seq\":4,\"success\":false,\"type\":\"response\"}",
            "{\"body\":null,\"command\":\"disconnect\",\"request_seq\":4,\"seq\":5,\"success\":true,\"type\":\"response\"}",
        ],
    },
];

/// Returns messages with these contents.
fn framed(alloc: Global, contents: &[&str]) -> Result<Said, NoMemory> {
    let mut messages = Said::new(alloc);
    for content in contents {
        let Ok(()) = write_frame(alloc, &mut messages, content.as_bytes()) else {
            return Err(NoMemory);
        };
    }
    Ok(messages)
}

/// Whether a conversation is answered as the case says.
fn is_answered(alloc: Global, case: &Case) -> Result<bool, NoMemory> {
    let asked = framed(alloc, case.asked)?;
    let wanted = framed(alloc, case.said)?;
    let mut said = Said::new(alloc);
    let mut input = MemoryInput::new(asked.as_slice());
    let status = adapter_engine(alloc, &mut input, &mut said);
    Ok(status == Status::Done && said.as_slice() == wanted.as_slice())
}

#[test]
fn conversations_are_answered(rt: HostRuntime) -> Result<(), NoMemory> {
    for case in &CASES {
        let answered = is_answered(rt.alloc(), case)?;
        assert!(rt; answered);
    }
    Ok(())
}

#[test]
fn refusals_are_told_as_the_client_counts(rt: HostRuntime) -> Result<(), NoMemory> {
    for case in &REFUSALS {
        let answered = is_answered(rt.alloc(), case)?;
        assert!(rt; answered);
    }
    Ok(())
}

/// Two requests while nothing is launched, and what answers each.
const FIRST: &str = "{\"seq\":1,\"type\":\"request\",\"command\":\"threads\"}";

const ASKED: &[&str] = &[
    FIRST,
    "{\"seq\":2,\"type\":\"request\",\"command\":\"threads\"}",
];

const SAID_FIRST: &[&str] = &[
    "{\"command\":\"threads\",\"message\":\"no text is launched\",\"request_seq\":1,\"seq\":1,\"success\":false,\"type\":\"response\"}",
];

const SAID_BOTH: &[&str] = &[
    "{\"command\":\"threads\",\"message\":\"no text is launched\",\"request_seq\":1,\"seq\":1,\"success\":false,\"type\":\"response\"}",
    "{\"command\":\"threads\",\"message\":\"no text is launched\",\"request_seq\":2,\"seq\":2,\"success\":false,\"type\":\"response\"}",
];

#[test]
fn what_was_read_before_a_fault_is_answered(rt: HostRuntime) -> Result<(), NoMemory> {
    let asked = framed(rt.alloc(), ASKED)?;
    let first = framed(rt.alloc(), &[FIRST])?.as_slice().len() as u64;
    let none: &[&str] = &[];
    for (passing, answered) in [
        (0, none),
        (3, none),
        (first.saturating_sub(1), none),
        (first, SAID_FIRST),
        (first.saturating_add(30), SAID_FIRST),
        (first.saturating_mul(2), SAID_BOTH),
    ] {
        let wanted = framed(rt.alloc(), answered)?;
        let mut said = Said::new(rt.alloc());
        let mut input = FaultyInput::new(asked.as_slice(), passing, 1);
        let status = adapter_engine(rt.alloc(), &mut input, &mut said);
        assert!(rt; status == Status::Device);
        assert!(rt; said.as_slice() == wanted.as_slice());
    }
    Ok(())
}

#[test]
fn a_failed_write_ends_the_conversation(rt: HostRuntime) -> Result<(), NoMemory> {
    let asked = framed(rt.alloc(), ASKED)?;
    let wanted = framed(rt.alloc(), SAID_FIRST)?;
    let mut input = MemoryInput::new(asked.as_slice());
    let mut output = FaultyOutput::new(rt.alloc(), 1_000, 1, 1_000)?;
    let status = adapter_engine(rt.alloc(), &mut input, &mut output);
    assert!(rt; status == Status::Device);
    assert!(rt; output.as_slice() == wanted.as_slice());
    Ok(())
}

/// The message with which a client goes, and what is said to it.
const LAST: &[&str] = &["{\"seq\":1,\"type\":\"request\",\"command\":\"disconnect\"}"];

const SAID_LAST: &[&str] = &[
    "{\"body\":null,\"command\":\"disconnect\",\"request_seq\":1,\"seq\":1,\"success\":true,\"type\":\"response\"}",
];

#[test]
fn nothing_is_read_once_the_client_has_gone(rt: HostRuntime) -> Result<(), NoMemory> {
    let asked = framed(rt.alloc(), LAST)?;
    let wanted = framed(rt.alloc(), SAID_LAST)?;
    let passing = asked.as_slice().len() as u64;
    let mut said = Said::new(rt.alloc());
    let mut input = FaultyInput::new(asked.as_slice(), passing, 1);
    let status = adapter_engine(rt.alloc(), &mut input, &mut said);
    assert!(rt; status == Status::Done);
    assert!(rt; said.as_slice() == wanted.as_slice());
    Ok(())
}

#[test]
fn what_is_no_message_ends_the_conversation(rt: HostRuntime) -> Result<(), NoMemory> {
    for (bytes, why) in [
        (
            "Content-Length: 9\r\n\r\n{}",
            "the input ends within a message",
        ),
        (
            "Content-Length: 99999999\r\n\r\n",
            "the message is too long",
        ),
        (
            "content-length:123456789\r\n\r\n",
            "the message is too long",
        ),
        (
            "Content-Size: 2\r\n\r\n{}",
            "this is not the header of a message",
        ),
    ] {
        let wanted = format!(in rt.alloc();
            "{{\"command\":\"\",\"message\":\"{why}\",\"request_seq\":0,\"seq\":1,\"success\":false,\"type\":\"response\"}}"
        )?;
        let wanted = framed(rt.alloc(), &[wanted.as_str()])?;
        let mut said = Said::new(rt.alloc());
        let mut input = MemoryInput::new(bytes.as_bytes());
        let status = adapter_engine(rt.alloc(), &mut input, &mut said);
        assert!(rt; status == Status::Refused);
        assert!(rt; said.as_slice() == wanted.as_slice());
    }
    Ok(())
}
