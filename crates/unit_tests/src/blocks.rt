//! Blocks, their parents and their calls: their code, and sources that aren't templates.

/// Sources and their code.
pub(crate) static CODES: [&str; 15] = [
    "{% block x required %}a{% endblock x %}{% block y %}{% endblock %} => block:x block:y | x! raw:a | y",
    "{% block required required %}{% endblock required %} => block:required",
    "{% block x required %}{% block y %}{% endblock %}{% endblock %} => block:x | x! block:y | y",
    "{% extends a if b %}x => $b if-false:4 $a jump:5 #silent extends raw:x",
    "{% extends \"a\" %}{% extends b %} => #a extends $b extends",
    "{% for a in b %}{% extends a %}{% endfor %} => $b loop iterate:7 store:a $a extends jump:2 looped",
    "{{ super() }}{{ super(1) }}{{ super(a=1) }} => super #1 call:super1 emit #a #1 named:1 call:super1 emit",
    "{{ (super)() }}{{ super().a }}{{ super }} => super call:super0 .a emit $super emit",
    "{% set a = super() %}{% do super() %} => call:super0 store:a call:super0 drop",
    "{{ self.x() }}{{ (self).x() }}{{ (self.x()) }} => block:x block:x block:x",
    "{{ self.x() ~ self.y()|f }} => capture block:x captured capture block:y captured filter:f1@0 ~ emit",
    "{{ self.x(1) }}{{ self.x }}{{ self.a.x() }} => $self #1 method:x2 emit $self .x emit $self .a method:x1 emit",
    "{% do self.x() %}{% set self.x().a = b %} => capture block:x captured drop $b capture block:x captured set:a",
    "{% call self.x() %}{% endcall %} => $self #caller jump:4 return closure #[] macro:caller3 named:1 method:x2 emit",
    r#"{% call(a) self.x().y() %}{% endcall %} => capture block:x captured #caller jump:7 store:a return closure #["a"] macro:caller5 named:1 method:y2 emit"#,
];

/// Sources that spell no template.
pub(crate) static REFUSED: [&str; 9] = [
    "{% block x required required %}{% endblock %}",
    "{% block x optional %}{% endblock %}",
    "{% block required %}{% endblock x %}",
    "{% extends %}",
    "{% extends a, b %}",
    "{% block x %}{% extends a %}",
    "{% extends a %}{% endextends %}",
    "{{ self.x(,) }}",
    "{% set self.x() = 1 %}",
];
