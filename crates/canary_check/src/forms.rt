//! What to write or to report in place of a form of Argo Rollouts' conditions that the desk does
//! not read.

/// Of a decimal number for which decimal.rt names no whole one.
pub(crate) const DECIMAL: &str =
    "scale the results and the number to whole numbers, as 0.95 to 95 hundredths";

/// Of `1_000`, `1e3`, `0x1F`.
pub(crate) const SPELLING: &str = "write digits alone: 1000 for 1_000 and 1e3, 31 for 0x1F";

/// Of a number outside 64 bits with a sign.
pub(crate) const LARGE: &str = "report in a larger unit, in which the number is smaller";

/// Of `+5`.
pub(crate) const PLUS: &str = "write 5 for +5";

/// Of `- 5`.
pub(crate) const APART: &str = "write the minus directly before its digits: -5 for - 5";

/// Of `-result`.
pub(crate) const MINUS_RESULT: &str = "write result < -5 for -result > 5";

/// Of `result - 1 > 5`, and of the other signs of arithmetic.
pub(crate) const ARITHMETIC: &str =
    "report what the arithmetic gives, or write result > 6 for result - 1 > 5";

/// Of `result == "up"`.
pub(crate) const TEXT: &str =
    "report 1 for the text that is wanted, and write result == 1 for result == \"up\"";

/// Of `matches`, `contains`, `startsWith`, `endsWith`.
pub(crate) const TEXT_TEST: &str = "report 1 where the text passes the test, and write result == 1";

/// Of `true` and `false`.
pub(crate) const TRUTH: &str =
    "report 1 for true and 0 for false, and write result == 1 for result == true";

/// Of `result` with no comparison.
pub(crate) const ALONE: &str =
    "report 1 for true and 0 for false, and write result == 1 for result";

/// Of `nil`, `??`, `default(result, 0)`.
pub(crate) const NO_VALUE: &str =
    "report a failure if there is no value, and write result < 5 for default(result, 0) < 5";

/// Of `len(result) == 0 || ..`, `isNaN(result) || ..`.
pub(crate) const NO_VALUE_BESIDE: &str =
    "leave it out: an agent that has no value reports a failure";

/// Of `isNaN(result)`, `isInf(result)`.
pub(crate) const NO_NUMBER: &str =
    "report a failure if the value is no finite number, and leave isNaN and isInf out";

/// Of `asInt(result)`, `asFloat(result)`.
pub(crate) const CAST: &str = "write result for asInt(result): a result is a whole number";

/// Of `len(result)`.
pub(crate) const LENGTH: &str = "report the length, and write result == 2 for len(result) == 2";

/// Of any other function.
pub(crate) const FUNCTION: &str = "report what the function gives, or write \
    result[0] > 5 && result[1] > 5 for all(result, {# > 5})";

/// Of `result.value`, `result["value"]`.
pub(crate) const MEMBER: &str = "report the value, and write result > 5 for result.value > 5";

/// Of `result[-1]`.
pub(crate) const FROM_END: &str = "count the places of a list from 0: result[0] is the first";

/// Of `result[0:2]`.
pub(crate) const SLICE: &str = "name each place of the list: result[0] and result[1]";

/// Of `result[0][1]`.
pub(crate) const LIST_IN_LIST: &str = "report one list of whole numbers, with no list inside it";

/// Of `result == [1, 2]`.
pub(crate) const LIST: &str = "write result[0] == 1 && result[1] == 2 for result == [1, 2]";

/// Of `result in [1, 2]`, `result in 1..5`.
pub(crate) const IN: &str = "write result == 1 || result == 2 for result in [1, 2], \
    and result >= 1 && result <= 5 for result in 1..5";

/// Of `1 < result < 5`.
pub(crate) const CHAIN: &str = "write 1 < result && result < 5 for 1 < result < 5";

/// Of `(result) > 5`.
pub(crate) const BRACKETS: &str =
    "write brackets round comparisons alone: result > 5 for (result) > 5";

/// Of `result > 5 ? true : false`.
pub(crate) const CHOICE: &str = "write result > 5 for result > 5 ? true : false";

/// Of `=`.
pub(crate) const EQUAL: &str = "write == for =";

/// Of `&`.
pub(crate) const AND: &str = "write && for &";

/// Of `|`.
pub(crate) const PIPE: &str = "write || between two conditions, and report what a pipe gives";

/// Of `let x = result; x > 5`.
pub(crate) const LET: &str = "write result > 5 for let x = result; x > 5";

/// Of `// high`, `/* high */`.
pub(crate) const COMMENT: &str = "leave the comment out";

/// Of `{{args.limit}}`.
pub(crate) const UNFILLED: &str = "fill {{..}} in before the manifest is sent";

/// Of `Result`, `AND`.
pub(crate) const CAPITALS: &str = "write result, and, or and not in small letters";
