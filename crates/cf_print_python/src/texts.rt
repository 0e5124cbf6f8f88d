//! The texts of printed Python that are the same in each file.

/// What is told of overflow, up to the first statement.
pub const PAST: &[u8] = b"    OverflowError where a number is past MAX.
    \"\"\"
";

/// What makes an argument a set, from its name on.
pub const AS_NUMBERS: &[u8] = b" = numbers(";

/// The name of what a set is taken from.
pub const ITERABLE: &[u8] = b"
from collections.abc import Iterable
";

/// The greatest number.
pub const MAX: &[u8] = b"
MAX = 2**127 - 1
";

/// The exception where there is no solution.
pub const NONE: &[u8] = b"

class NoSolution(Exception):
    \"\"\"No outputs satisfy the relation of this choose.\"\"\"

    def __init__(self, choose: int) -> None:
        super().__init__(f\"no solution at choose {choose}\")
        self.choose = choose
";

/// The check of a number.
pub const FIT: &[u8] = b"

def fit(number: int) -> int:
    \"\"\"The number, where it is at most MAX in absolute value.\"\"\"
    if not -MAX <= number <= MAX:
        raise OverflowError(\"overflow\")
    return number
";

/// The sum of three numbers or more.
pub const SUM_OF: &[u8] = b"

def sum_of(*parts: int) -> int:
    \"\"\"The sum of the parts, where it is at most MAX in absolute value on its way from left to right.\"\"\"
    number = 0
    for part in parts:
        number = fit(number + part)
    return number
";

/// The check of an argument that is a number.
pub const WHOLE: &[u8] = b"

def whole(value: int) -> int:
    \"\"\"The argument, where it is a whole number of at most MAX in absolute value.\"\"\"
    if not isinstance(value, int) or isinstance(value, bool):
        raise TypeError(\"an int is expected\")
    return fit(value)
";

/// The check of an argument that is a truth value.
pub const TRUTH: &[u8] = b"

def truth(value: bool) -> bool:
    \"\"\"The argument, where it is a truth value.\"\"\"
    if not isinstance(value, bool):
        raise TypeError(\"a bool is expected\")
    return value
";

/// The check of an argument that is a set.
pub const NUMBERS: &[u8] = b"

def numbers(value: Iterable[int]) -> frozenset[int]:
    \"\"\"The argument as a set of whole numbers.\"\"\"
    return frozenset(whole(x) for x in value)
";

/// A slice of a set.
pub const SLICE: &[u8] = b"

def cut(items: frozenset[int], start: int, count: int) -> frozenset[int]:
    \"\"\"The elements at the places start .. start + count - 1 of the rising list.\"\"\"
    start, count = max(start, 0), max(count, 0)
    return frozenset(sorted(items)[start : start + count])
";

/// Numbers that are not in a set.
pub const FRESH: &[u8] = b"

def fresh(items: frozenset[int], count: int) -> frozenset[int]:
    \"\"\"The least numbers from 0 upwards that are not in the set.\"\"\"
    out: set[int] = set()
    number = 0
    while len(out) < count:
        if number not in items:
            out.add(number)
        number += 1
    return frozenset(out)
";

/// What a filter of lines takes from the library.
pub const IMPORTS: &[u8] = b"
import re
import sys
";

/// How a filter reads and writes lines, up to the pattern of a line.
pub const FILTER: &[u8] = b"

LINE = re.compile(rb\"";

/// From the pattern of a line to the name of the function that is called.
pub const REPLY: &[u8] = b"\")


def read(text: bytes) -> int | bool | frozenset[int]:
    \"\"\"The value that a part of a line spells.\"\"\"
    if text[:1] in b\"tf\":
        return text == b\"true\"
    if text[:1] == b\"{\":
        return frozenset(fit(int(x)) for x in re.findall(rb\"-?[0-9]+\", text))
    return fit(int(text))


def written(value: int | bool | frozenset[int]) -> str:
    \"\"\"The value as it stands in a reply.\"\"\"
    if isinstance(value, bool):
        return str(value).lower()
    if isinstance(value, frozenset):
        return \"{\" + \",\".join(map(str, sorted(value))) + \"}\"
    return str(value)


def reply(line: bytes) -> str:
    \"\"\"The reply to a line.\"\"\"
    if len(line) > 65536:
        return \"line too long\"
    spelled = LINE.fullmatch(line.removesuffix(b\"\\r\"))
    try:
        values = [read(part) for part in spelled.groups()] if spelled else None
    except OverflowError:
        values = None
    if values is None:
        return \"bad input\"
    try:
        outcome = ";

/// From the call to what a reply holds.
pub const OUTCOME: &[u8] = b"(*values)
    except NoSolution as none:
        return str(none)
    except OverflowError:
        return \"overflow\"
    return ";

/// Behind what a reply holds.
pub const FILTER_MAIN: &[u8] = b"


def main() -> None:
    \"\"\"Replies to each line of the input.\"\"\"
    sys.set_int_max_str_digits(0)
    for line in sys.stdin.buffer:
        print(reply(line.removesuffix(b\"\\n\")))


if __name__ == \"__main__\":
    main()
";
