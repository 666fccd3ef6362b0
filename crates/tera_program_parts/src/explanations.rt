//! What `tera explain` prints of each rule: the sections of docs/CHECKING.md.
//!
//! Written by `tools/explanations --write`.

use tera_check::Kind;

/// The names of the rules.
pub static RULES: [&str; 22] = [
    "fault",
    "undefined-component",
    "missing-argument",
    "unknown-argument",
    "wrong-type",
    "repeated-argument",
    "unused-body",
    "unused-parameter",
    "unused-component",
    "defined-again",
    "repeated-key",
    "repeated-condition",
    "unused-ignore",
    "missing-template",
    "circular-extends",
    "circular-include",
    "undefined-block",
    "super-without-parent",
    "unknown-filter",
    "unknown-test",
    "unknown-function",
    "unread",
];

/// Those of which no findings may be asked for.
pub static OPTIONAL_RULES: [&str; 20] = [
    "undefined-component",
    "missing-argument",
    "unknown-argument",
    "wrong-type",
    "repeated-argument",
    "unused-body",
    "unused-parameter",
    "unused-component",
    "defined-again",
    "repeated-key",
    "repeated-condition",
    "unused-ignore",
    "missing-template",
    "circular-extends",
    "circular-include",
    "undefined-block",
    "super-without-parent",
    "unknown-filter",
    "unknown-test",
    "unknown-function",
];

/// What the page has on findings of the kind.
pub fn explanation(kind: Kind) -> &'static str {
    match kind {
        Kind::Fault => FAULT,
        Kind::UndefinedComponent => UNDEFINED_COMPONENT,
        Kind::MissingArgument => MISSING_ARGUMENT,
        Kind::UnknownArgument => UNKNOWN_ARGUMENT,
        Kind::WrongType => WRONG_TYPE,
        Kind::RepeatedArgument => REPEATED_ARGUMENT,
        Kind::UnusedBody => UNUSED_BODY,
        Kind::UnusedParameter => UNUSED_PARAMETER,
        Kind::UnusedComponent => UNUSED_COMPONENT,
        Kind::DefinedAgain => DEFINED_AGAIN,
        Kind::RepeatedKey => REPEATED_KEY,
        Kind::RepeatedCondition => REPEATED_CONDITION,
        Kind::UnusedIgnore => UNUSED_IGNORE,
        Kind::MissingTemplate => MISSING_TEMPLATE,
        Kind::CircularExtends => CIRCULAR_EXTENDS,
        Kind::CircularInclude => CIRCULAR_INCLUDE,
        Kind::UndefinedBlock => UNDEFINED_BLOCK,
        Kind::SuperWithoutParent => SUPER_WITHOUT_PARENT,
        Kind::UnknownFilter => UNKNOWN_FILTER,
        Kind::UnknownTest => UNKNOWN_TEST,
        Kind::UnknownFunction => UNKNOWN_FUNCTION,
    }
}

/// What the page has on files that could not be read.
pub const UNREAD: &str = r##"
A file or a folder could not be read, so nothing is known of what is in it. The forms of output for other programs have
this as a finding, at the start of the file, so that no log looks clean if files were not read.
"##;

const FAULT: &str = r##"
The template has a syntax error, so Tera refuses it. All syntax errors of a file are reported, up to the number of
`--max-faults`, and what is found in the rest of it. A note says where the cause is, if it is at another place.

    {% if user %}Hello {{ user.name {% endif %}

An expression ends with `}}`:

    {% if user %}Hello {{ user.name }}{% endif %}
"##;

const UNDEFINED_COMPONENT: &str = r##"
A call is of a component that no template defines: neither those that are checked, nor those of `--library`.

    {% component ui.button(label) %}<button>{{ label }}</button>{% endcomponent %}
    {{<ui.buton label="Buy"/>}}

Correct the name, define the component, or name the files that define it with `--library`:

    {{<ui.button label="Buy"/>}}
"##;

const MISSING_ARGUMENT: &str = r##"
A call does not pass an argument that its component requires: one that has no default and is not implicit. A spread may
pass any argument, so nothing is missing from a call that has one.

    {% component box(title: string, size: integer = 1) %}{{ title }} {{ size }}{% endcomponent %}
    {{<box size={2}/>}}

Pass the argument, or give it a default:

    {{<box title="News" size={2}/>}}
"##;

const UNKNOWN_ARGUMENT: &str = r##"
A call passes an argument that its component does not have, and the component has no rest parameter to take it.

    {% component box(title: string) %}{{ title }}{% endcomponent %}
    {{<box titel="News"/>}}

Correct the name, or add the parameter to the component:

    {{<box title="News"/>}}
"##;

const WRONG_TYPE: &str = r##"
A call passes a constant whose type is not the one that the component declares. The type of what is not a constant is
not known, and nothing is reported about it.

    {% component box(size: integer) %}{{ size }}{% endcomponent %}
    {{<box size="2"/>}}

Pass a value of the type, here a number in braces and not a text in quotes:

    {{<box size={2}/>}}
"##;

const REPEATED_ARGUMENT: &str = r##"
A call passes the same argument more than once. The last value counts, so this one has no effect.

    {{<box title="News" title="Sport"/>}}

Remove the value that is not meant:

    {{<box title="Sport"/>}}
"##;

const UNUSED_BODY: &str = r##"
A call gives a body to a component that never renders it: its definition has none of the variables `body` and
`__tera_context`, and no `include`. So what is between the tags of the call is not shown. Nothing is reported if that is
only white space.

    {% component box(title: string) %}{{ title }}{% endcomponent %}
    {% <box title="News"> %}Rain{% </box> %}

Call the component without a body, or let it render the body:

    {% component box(title: string) %}{{ title }}: {{ body }}{% endcomponent %}
    {% <box title="News"> %}Rain{% </box> %}
"##;

const UNUSED_PARAMETER: &str = r##"
Nothing in the body of a component names one of its parameters. So what calls pass for it has no effect.

    {% component box(title: string, colour: string) %}{{ title }}{% endcomponent %}

Use the parameter, or remove it. If callers have to pass it, let its name begin with `_`:

    {% component box(title: string) %}{{ title }}{% endcomponent %}
"##;

const UNUSED_COMPONENT: &str = r##"
No template calls the component. A call in any file that is read counts, also in one of a library. The program that
renders the templates may render components by itself, so this rule is off. It is on with `--select`, or in `tera.toml`:

    [rules]
    unused-component = "warning"

Check all files of a site together, or set its root. A run over some of its files, as in a hook, also reports components
that only the other files call.

This is reported, if no other file calls `panel`:

    {% component box(title: string) %}{{ title }}{% endcomponent %}
    {% component panel(title: string) %}<p>{{ title }}</p>{% endcomponent %}
    {{<box title="News"/>}}

Remove the component. If the program renders it, silence the finding:

    {# tera-ignore: unused-component #}
    {% component panel(title: string) %}<p>{{ title }}</p>{% endcomponent %}
"##;

const DEFINED_AGAIN: &str = r##"
A component has the name of one that a file before it defines, or the same file if it is given again. Tera refuses
templates that define a component twice. A note says where the first one is.

    {% component box(title: string) %}{{ title }}{% endcomponent %}

This, in another file, is reported:

    {% component box(text: string) %}{{ text }}{% endcomponent %}

Remove one of the two, or give it another name.
"##;

const REPEATED_KEY: &str = r##"
A map has the same key more than once. The last value counts, so this one has no effect. A map of only constants is not
checked, as the parser keeps only the last value of each of its keys.

    {{ table(style={"width": width, "color": color, "width": 100}) }}

Remove the value that is not meant:

    {{ table(style={"color": color, "width": 100}) }}
"##;

const REPEATED_CONDITION: &str = r##"
A condition of an `if` or an `elif` is the same as one before it in the same chain. So its body is never shown, unless a
function in it gives another value at each call. A note says where the other one is.

    {% if user.admin %}Admin{% elif user.admin %}Editor{% endif %}

Correct the condition that is not meant:

    {% if user.admin %}Admin{% elif user.editor %}Editor{% endif %}
"##;

const UNUSED_IGNORE: &str = r##"
A comment silences findings of a rule, and there are none on its line, or no rule has this name. A comment that is alone
on its line silences findings on the next line too.

    {# tera-ignore: unused-parameter #}
    {% component box(title: string) %}{{ title }}{% endcomponent %}

Remove the comment, or the rule from it:

    {% component box(title: string) %}{{ title }}{% endcomponent %}
"##;

const MISSING_TEMPLATE: &str = r##"
A template extends or includes a template that is not there, so Tera refuses to load it. The name is a path below the
folder of the templates.

    {% extends "bas.html" %}

Correct the name, or add the template:

    {% extends "base.html" %}
"##;

const CIRCULAR_EXTENDS: &str = r##"
A template extends one that extends it, directly or through others, so Tera refuses to load it.

    {% extends "page.html" %}

This, in `page.html`, is reported. One of the templates has to extend another one, or none:

    {% extends "base.html" %}
"##;

const CIRCULAR_INCLUDE: &str = r##"
A template includes one that includes or extends it, directly or through others. If nothing stops this, rendering does
not end.

    {% include "menu.html" %}

This, in `menu.html`, is reported. Remove the include, or include a template that does not lead back:

    {% include "item.html" %}
"##;

const UNDEFINED_BLOCK: &str = r##"
A template that extends another has a block that none of its parent templates has. So the block is never shown.

    {% extends "base.html" %}{% block contents %}News{% endblock %}

Give it the name of a block of a parent template, or add the block there:

    {% extends "base.html" %}{% block content %}News{% endblock %}
"##;

const SUPER_WITHOUT_PARENT: &str = r##"
`super()` shows the block of the parent template. Here no parent template has the block, or `super()` is not in a block,
so there is nothing to show.

    {% block content %}{{ super() }}News{% endblock %}

Remove the call, or let the template extend one that has the block:

    {% extends "base.html" %}{% block content %}{{ super() }}News{% endblock %}
"##;

const UNKNOWN_FILTER: &str = r##"
The list `filters` of `tera.toml` does not have the name of a filter. Tera refuses a template with a filter that does
not exist. Without the list nothing is reported.

    {{ text | markdwon }}

Correct the name, or add it to the list, if the program registers the filter:

    {{ text | markdown }}
"##;

const UNKNOWN_TEST: &str = r##"
The list `tests` of `tera.toml` does not have the name of a test. Tera refuses a template with a test that does not
exist. Without the list nothing is reported.

    {% if user is define %}{{ user.name }}{% endif %}

Correct the name, or add it to the list, if the program registers the test:

    {% if user is defined %}{{ user.name }}{% endif %}
"##;

const UNKNOWN_FUNCTION: &str = r##"
The list `functions` of `tera.toml` does not have the name of a function that is called. Tera refuses a template with a
call of a function that does not exist. Without the list nothing is reported.

    {% for page in rnge(end=3) %}{{ page }}{% endfor %}

Correct the name, or add it to the list, if the program registers the function:

    {% for page in range(end=3) %}{{ page }}{% endfor %}
"##;
