ghost use Rattle.std.specs.Prelude.{◌≡◌, map};
ghost use Rattle.pt_prelude.specs.Functions.{function_names};
ghost use Rattle.pt_prelude.specs.Helpers.{helpers, name_of};

/// The prelude in parts, for a macro that makes a text of them. What stands behind `later` holds
/// `yield`, or calls a function that does.
macro_rules! prelude {
    ($text:ident) => {
        $text! {
            now r#"def iter_of(x):
    if _has(x, "__iter__"): return x.__iter__()
    _bad("iter", x, x)
def next_of(x):
    if _has(x, "__next__"): return x.__next__()
    _bad("next", x, x)
def next_or_of(x, default):
    try: return next(x)
    except StopIteration: return default
def len_of(x):
    if _has(x, "__len__"): return _len(x.__len__())
    _bad("len", x, x)
def truth_of(x):
    if _has(x, "__bool__"): return _bool(x.__bool__())
    return _len(x.__len__()) != 0 if _has(x, "__len__") else True
def binary_of(a, b, name, back, sign):
    if _has(a, name):
        r = _get(a, name)(b)
        if r is not NotImplemented: return r
    if _has(b, back):
        r = _get(b, back)(a)
        if r is not NotImplemented: return r
    if sign == "==": return a is b
    if sign == "!=": return not a == b
    _bad(sign, a, b)
def same_of(a, b):
    if len(a) != len(b): return False
    i = 0
    while i < len(a):
        if not (a[i] is b[i] or a[i] == b[i]): return False
        i += 1
    return True
def pairs_of(a, b):
    if len(a) != len(b): return False
    for k in a:
        if k not in b: return False
        if not (a[k] is b[k] or a[k] == b[k]): return False
    return True
def in_of(x, v):
    if _has(x, "__contains__"): return bool(x.__contains__(v))
    for w in x:
        if w is v or w == v: return True
    return False
def list_of(x=()):
    r = []
    for v in x: r.append(v)
    return r
def take_of(x, n):
    r = []
    for v in x:
        r.append(v)
        if len(r) > n: break
    return r
def tuple_of(x=()): return _tuple(list_of(x))
def set_of(x=()):
    r = _set()
    for v in x: r.add(v)
    return r
def update_of(d, x):
    if _is(x, "dict"):
        for k in x: d[k] = x[k]
    else:
        for k, v in x: d[k] = v
def dict_of(x=(), **kw):
    r = {}
    update_of(r, x)
    update_of(r, kw)
    return r
def extend_of(l, x):
    for v in list_of(x): l.append(v)
def join_of(s, x): return _join(s, list_of(x))
def sum_of(x, start=0):
    for v in x: start = start + v
    return start
def any_of(x):
    for v in x:
        if v: return True
    return False
def all_of(x):
    for v in x:
        if not v: return False
    return True
def best_of(least, x, xs, key=None, **kw):
    found = False
    for v in (x,) + xs if xs else x:
        k = v if key is None else key(v)
        if not found or (k < bk if least else k > bk):
            found, b, bk = True, v, k
    if found: return b
    if "default" in kw: return kw["default"]
    raise ValueError("empty iterable")
def min_of(x, *xs, **kw): return best_of(True, x, xs, **kw)
def max_of(x, *xs, **kw): return best_of(False, x, xs, **kw)
def sorted_of(x, *, key=None, reverse=False):
    l = list_of(x)
    return _sort(l, l if key is None else [key(v) for v in l], bool(reverse))
def sort_of(l, **kw): _refill(l, sorted_of(l, **kw))
"#
            later r#"def map_go(f, it):
    for v in it: yield f(v)
def map_of(f, x): return map_go(f, iter(x))
def filter_go(f, it):
    for v in it:
        if (v if f is None else f(v)): yield v
def filter_of(f, x): return filter_go(f, iter(x))
def zip_go(its):
    while its:
        r = []
        for it in its:
            try: r.append(next(it))
            except StopIteration: return
        yield _tuple(r)
def zip_of(*xs): return zip_go([iter(x) for x in xs])
def enumerate_go(it, n):
    for v in it:
        yield (n, v)
        n += 1
def enumerate_of(x, start=0): return enumerate_go(iter(x), start)
def reversed_go(x, i):
    while i > 0:
        i -= 1
        yield x[i]
def reversed_of(x): return reversed_go(x, len(x))
"#
            now r#"def repr_of(x): return repr_in(x, [])
def repr_in(x, up):
    if _has(x, "__repr__"): return _str(x.__repr__())
    if not _holds(x): return _repr(x)
    for y in up:
        if y is x: return _dots(x)
    return _wrap(x, [repr_in(y, up + [x]) for y in _parts(x)])
def str_of(x):
    if _has(x, "__str__"): return _str(x.__str__())
    if not _error(x): return repr_of(x)
    a = x.args
    if len(a) == 1: return repr(a[0]) if _is(x, "KeyError") else str(a[0])
    return repr(a) if a else ""
def print_of(xs, sep, end): _write(sep.join([str(v) for v in xs]) + end)
"#
        }
    };
}

macro_rules! whole {
    (now $a:literal later $b:literal now $c:literal) => { concat!($a, $b, $c) };
}

macro_rules! without_later {
    (now $a:literal later $b:literal now $c:literal) => { concat!($a, $c) };
}

/// The whole prelude: the functions, written in Python, that operations and builtins ask where they
/// call functions of a script (Library Reference, "Built-in Functions"). A name with an underscore
/// before it is a primitive.
pub const WHOLE_PRELUDE: &str = prelude!(whole);

/// The prelude without the functions that hold `yield` and those that call them.
pub const PRELUDE: &str = prelude!(without_later);

/// The text of the prelude, as scripts run over it.
pub fn text() -> &'static str
    ensures { result.now ≡ PRELUDE.now }
{
    PRELUDE
}

/// The text of the whole prelude, which has a function for each helper, in their order.
pub fn whole_text() -> &'static str
    ensures text { result.now ≡ WHOLE_PRELUDE.now }
    ensures functions { function_names result.now ≡ map name_of helpers }
{
    WHOLE_PRELUDE
}
