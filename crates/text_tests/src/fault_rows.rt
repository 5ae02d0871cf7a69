// Documents that are not a configuration, with documents close to them, and their answers, as the tests write them.

// Texts, the outermost object, and the names of fields (RFC 8259; S3 User Guide, "Lifecycle configuration elements").
pub(crate) const JSON_ROWS: &[(&str, &str)] = &[
    // A configuration as the AWS command line prints one.
    (
        "{'Rules':[{'ID':'logs','Filter':{'And':{'Prefix':'logs/','Tags':[{'Key':'kind','Value':'raw'},\
         {'Key':'keep','Value':'no'}]}},'Status':'Enabled','Transitions':[{'Days':30,\
         'StorageClass':'STANDARD_IA'},{'Days':90,'StorageClass':'GLACIER'}],\
         'Expiration':{'Days':365}},{'ID':'rest','Filter':{'Prefix':''},'Status':'Enabled',\
         'NoncurrentVersionExpiration':{'NoncurrentDays':30,'NewerNoncurrentVersions':3},\
         'AbortIncompleteMultipartUpload':{'DaysAfterInitiation':7}}],\
         'TransitionDefaultMinimumObjectSize':'all_storage_classes_128K'}",
        "{'Rules':[{'Expiration':{'Days':365},'Filter':{'And':{'Prefix':'logs/','Tags':[{'Key':'kind',\
         'Value':'raw'},{'Key':'keep','Value':'no'}]}},'ID':'logs','Status':'Enabled',\
         'Transitions':[{'Days':30,'StorageClass':'STANDARD_IA'},{'Days':90,\
         'StorageClass':'GLACIER'}]},{'AbortIncompleteMultipartUpload':{'DaysAfterInitiation':7},\
         'Filter':{'Prefix':''},'ID':'rest','NoncurrentVersionExpiration':{'NewerNoncurrentVersions':3,\
         'NoncurrentDays':30},'Status':'Enabled'}],\
         'TransitionDefaultMinimumObjectSize':'all_storage_classes_128K'}",
    ),
    // Not JSON.
    ("", "NotJson"),
    ("{", "NotJson"),
    ("{'Rules':[]} x", "NotJson"),
    ("{'Rules':[],}", "NotJson"),
    ("{'Rules':[1,]}", "NotJson"),
    ("{'Rules':[01]}", "NotJson"),
    ("{Rules:[]}", "NotJson"),
    ("{'Rules':nul}", "NotJson"),
    ("{'Rules':'\\x'}", "NotJson"),
    ("{'Rules':'\\ud800'}", "NotJson"),
    ("{'Rules':'\t'}", "NotJson"),
    ("\u{feff}{'Rules':[]}", "NotJson"),
    ("{'zone':1,'Rules':[}", "NotJson"),
    // The outermost object.
    ("[]", "WrongShape "),
    ("null", "WrongShape "),
    ("7", "WrongShape "),
    ("{}", "WrongShape Rules"),
    ("{'Rules':null}", "WrongShape Rules"),
    ("{'Rules':{}}", "WrongShape Rules"),
    ("{'Rules':[7]}", "WrongShape Rules"),
    ("{'Rules':[[]]}", "WrongShape Rules"),
    ("{'Rules':[null]}", "WrongShape Rules"),
    ("{'Rules':7,'b':1,'a':2}", "UnknownField a"),
    ("{'Rules':7,'b':1,'Z':2}", "UnknownField Z"),
    ("{'rules':[],'':1}", "UnknownField "),
    ("{'Rules':[],'é':1,'zz':2}", "UnknownField zz"),
    ("{'Rules':[],'ab':1,'a':2}", "UnknownField a"),
    (
        " { 'Rules' : [ ] } \n",
        "{'Rules':[],'TransitionDefaultMinimumObjectSize':'all_storage_classes_128K'}",
    ),
    (
        "{'\\u0052ules':[]}",
        "{'Rules':[],'TransitionDefaultMinimumObjectSize':'all_storage_classes_128K'}",
    ),
    (
        "{'Rules':[],'TransitionDefaultMinimumObjectSize':'varies_by_storage_class'}",
        "{'Rules':[],'TransitionDefaultMinimumObjectSize':'varies_by_storage_class'}",
    ),
    (
        "{'Rules':[],'TransitionDefaultMinimumObjectSize':'none'}",
        "WrongShape TransitionDefaultMinimumObjectSize",
    ),
    (
        "{'Rules':[],'TransitionDefaultMinimumObjectSize':null}",
        "WrongShape TransitionDefaultMinimumObjectSize",
    ),
    (
        "{'TransitionDefaultMinimumObjectSize':1,'Rules':[{'Id':1}]}",
        "UnknownField Id",
    ),
    (
        "{'TransitionDefaultMinimumObjectSize':1,'Rules':[{'Status':'Enabled'}]}",
        "WrongShape TransitionDefaultMinimumObjectSize",
    ),
    // If a name occurs twice, the last value counts.
    (
        "{'Rules':7,'Rules':[]}",
        "{'Rules':[],'TransitionDefaultMinimumObjectSize':'all_storage_classes_128K'}",
    ),
    ("{'Rules':[],'Rules':7}", "WrongShape Rules"),
    (
        "{'Rules':7,'Rules':[],'TransitionDefaultMinimumObjectSize':'varies_by_storage_class'}",
        "{'Rules':[],'TransitionDefaultMinimumObjectSize':'varies_by_storage_class'}",
    ),
    (
        "{'Rules':[{'zone':1}],'\\u0052ules':[]}",
        "{'Rules':[],'TransitionDefaultMinimumObjectSize':'all_storage_classes_128K'}",
    ),
    (
        ",'Expiration':{'Days':0,'Days':1}",
        "'Expiration':{'Days':1},'Filter':{'Prefix':''},'ID':'rule-1','Status':'Enabled'",
    ),
    (",'Expiration':{'Days':1,'Days':0}", "BadDays 1"),
    (
        ",'Expiration':{'Days':1,'zone':1,'zone':1}",
        "UnknownField zone",
    ),
    (
        "'Status':1,'Expiration':{'Days':1},'Status':'Disabled'",
        "'Expiration':{'Days':1},'Filter':{'Prefix':''},'ID':'rule-1','Status':'Disabled'",
    ),
    // Unknown fields: the first in byte order, before anything else of the object.
    (
        "'Status':'Enabled','zz':0,'ID':1,'Zone':0",
        "UnknownField Zone",
    ),
    (",'Filter':{'x':1,'Prefix':'a','Tag':1}", "UnknownField x"),
    (",'Filter':{'Tags':[]}", "UnknownField Tags"),
    (",'Filter':{'And':{'Tag':1,'Prefix':1}}", "UnknownField Tag"),
    (",'Filter':{'Tag':{'key':'a'}}", "UnknownField key"),
    (
        ",'Filter':{'And':{'Tags':[{'Key':1,'name':'a'}]}}",
        "UnknownField name",
    ),
    (",'Expiration':{'Days':'1','days':1}", "UnknownField days"),
    (
        ",'Transitions':[{'Days':1,'Date':7,'Zone':1}]",
        "UnknownField Zone",
    ),
    (
        ",'NoncurrentVersionExpiration':{'Days':1}",
        "UnknownField Days",
    ),
    (
        ",'NoncurrentVersionTransitions':[{'Days':1}]",
        "UnknownField Days",
    ),
    (
        ",'AbortIncompleteMultipartUpload':{'Days':1}",
        "UnknownField Days",
    ),
];

// What fields hold, and the order in which they are read (S3 User Guide, "Lifecycle configuration elements").
pub(crate) const FIELD_ROWS: &[(&str, &str)] = &[
    // A rule's own fields.
    ("'ID':1", "WrongShape ID"),
    ("'ID':null", "WrongShape ID"),
    ("'ID':'a'", "WrongShape Status"),
    ("'Status':'enabled'", "WrongShape Status"),
    ("'Status':true", "WrongShape Status"),
    ("'Status':'Disabled','Prefix':1", "WrongShape Prefix"),
    (",'Filter':[]", "WrongShape Filter"),
    (",'Filter':null", "WrongShape Filter"),
    (",'Expiration':7", "WrongShape Expiration"),
    (",'Expiration':null", "WrongShape Expiration"),
    (",'Transitions':{}", "WrongShape Transitions"),
    (",'Transitions':[7]", "WrongShape Transitions"),
    (
        ",'NoncurrentVersionExpiration':[]",
        "WrongShape NoncurrentVersionExpiration",
    ),
    (
        ",'NoncurrentVersionTransitions':7",
        "WrongShape NoncurrentVersionTransitions",
    ),
    (
        ",'NoncurrentVersionTransitions':[7]",
        "WrongShape NoncurrentVersionTransitions",
    ),
    (
        ",'AbortIncompleteMultipartUpload':7",
        "WrongShape AbortIncompleteMultipartUpload",
    ),
    // Each field is checked whole before the next, and each rule before the next.
    ("'Prefix':1,'Status':1", "WrongShape Status"),
    (",'Filter':{'x':1},'Prefix':1", "WrongShape Prefix"),
    (",'Expiration':7,'Filter':{'x':1}", "UnknownField x"),
    (
        ",'Transitions':7,'Expiration':{'Date':'2024-01-01T10:00:00Z'}",
        "NotMidnight",
    ),
    (
        ",'NoncurrentVersionExpiration':7,'Transitions':[{'Days':1,'StorageClass':'COLD'}]",
        "UnsupportedClass COLD",
    ),
    (
        ",'NoncurrentVersionTransitions':7,'NoncurrentVersionExpiration':{'x':1}",
        "UnknownField x",
    ),
    (
        ",'AbortIncompleteMultipartUpload':7,'NoncurrentVersionTransitions':[{'x':1}]",
        "UnknownField x",
    ),
    (
        ",'AbortIncompleteMultipartUpload':7},{'x':1",
        "WrongShape AbortIncompleteMultipartUpload",
    ),
    (",'Prefix':''},{'Status':1", "WrongShape Status"),
    // Filters: the choice of an operand is reported before its fields, and both spellings of a prefix at the filter's
    // turn.
    (",'Filter':{'Prefix':1,'Tag':1}", "WrongShape Filter"),
    (
        ",'Filter':{'And':7,'ObjectSizeLessThan':'5'}",
        "WrongShape Filter",
    ),
    (",'Prefix':'a','Filter':{'x':1}", "WrongShape Filter"),
    (",'Prefix':'','Filter':{}", "WrongShape Filter"),
    (",'Filter':{'Prefix':7}", "WrongShape Prefix"),
    (",'Filter':{'Tag':[]}", "WrongShape Tag"),
    (",'Filter':{'Tag':{'Value':'a'}}", "WrongShape Key"),
    (",'Filter':{'Tag':{'Key':'a'}}", "WrongShape Value"),
    (
        ",'Filter':{'Tag':{'Key':'a','Value':1}}",
        "WrongShape Value",
    ),
    (",'Filter':{'And':7}", "WrongShape And"),
    (",'Filter':{'And':{'Prefix':7}}", "WrongShape Prefix"),
    (",'Filter':{'And':{'Tags':{}}}", "WrongShape Tags"),
    (
        ",'Filter':{'And':{'Tags':[{'Key':'a','Value':'b'},7]}}",
        "WrongShape Tags",
    ),
    (
        ",'Filter':{'And':{'ObjectSizeLessThan':'5','ObjectSizeGreaterThan':-1}}",
        "WrongShape ObjectSizeGreaterThan",
    ),
    (
        ",'Filter':{'ObjectSizeGreaterThan':1.5}",
        "WrongShape ObjectSizeGreaterThan",
    ),
    (
        ",'Filter':{'ObjectSizeGreaterThan':1.0}",
        "WrongShape ObjectSizeGreaterThan",
    ),
    (
        ",'Filter':{'ObjectSizeGreaterThan':1e3}",
        "WrongShape ObjectSizeGreaterThan",
    ),
    (
        ",'Filter':{'ObjectSizeLessThan':18446744073709551616}",
        "WrongShape ObjectSizeLessThan",
    ),
    // Expirations, transitions and aborts: required fields, and the ranges of numbers.
    (
        ",'Expiration':{'Date':'2024-01-01T10:00:00Z','Days':4294967296}",
        "WrongShape Days",
    ),
    (",'Expiration':{'Days':'1'}", "WrongShape Days"),
    (",'Expiration':{'Days':-1}", "WrongShape Days"),
    (",'Expiration':{'Days':1.5}", "WrongShape Days"),
    (",'Expiration':{'Date':7}", "WrongShape Date"),
    (
        ",'Expiration':{'Date':7,'ExpiredObjectDeleteMarker':7}",
        "WrongShape Date",
    ),
    (
        ",'Expiration':{'ExpiredObjectDeleteMarker':'true'}",
        "WrongShape ExpiredObjectDeleteMarker",
    ),
    (
        ",'Transitions':[{'Days':'1','Date':7}]",
        "WrongShape Transitions",
    ),
    (
        ",'Transitions':[{'StorageClass':7}]",
        "WrongShape Transitions",
    ),
    (
        ",'Transitions':[{'Days':-1,'StorageClass':7}]",
        "WrongShape Days",
    ),
    (
        ",'Transitions':[{'Days':4294967296,'StorageClass':7}]",
        "WrongShape Days",
    ),
    (
        ",'Transitions':[{'Date':'2024-02-29'}]",
        "WrongShape StorageClass",
    ),
    (",'Transitions':[{'Days':30}]", "WrongShape StorageClass"),
    (
        ",'Transitions':[{'Days':30,'StorageClass':7}]",
        "WrongShape StorageClass",
    ),
    (
        ",'NoncurrentVersionExpiration':{'NewerNoncurrentVersions':1}",
        "WrongShape NoncurrentDays",
    ),
    (
        ",'NoncurrentVersionExpiration':{'NoncurrentDays':4294967296}",
        "WrongShape NoncurrentDays",
    ),
    (
        ",'NoncurrentVersionExpiration':{'NoncurrentDays':1,'NewerNoncurrentVersions':4294967296}",
        "WrongShape NewerNoncurrentVersions",
    ),
    (
        ",'NoncurrentVersionTransitions':[{'StorageClass':'GLACIER'}]",
        "WrongShape NoncurrentDays",
    ),
    (
        ",'NoncurrentVersionTransitions':[{'NoncurrentDays':30,'NewerNoncurrentVersions':'x'}]",
        "WrongShape StorageClass",
    ),
    (
        ",'NoncurrentVersionTransitions':[{'NoncurrentDays':30,'StorageClass':'GLACIER',\
         'NewerNoncurrentVersions':'x'}]",
        "WrongShape NewerNoncurrentVersions",
    ),
    (
        ",'AbortIncompleteMultipartUpload':{}",
        "WrongShape DaysAfterInitiation",
    ),
    (
        ",'AbortIncompleteMultipartUpload':{'DaysAfterInitiation':4294967296}",
        "WrongShape DaysAfterInitiation",
    ),
    // Classes.
    (
        ",'Transitions':[{'Days':30,'StorageClass':'glacier'}]",
        "UnsupportedClass glacier",
    ),
    (
        ",'Transitions':[{'Days':30,'StorageClass':''},7]",
        "UnsupportedClass ",
    ),
    (
        ",'NoncurrentVersionTransitions':[{'NoncurrentDays':30,'StorageClass':'INTELLIGENT_TIERING',\
         'NewerNoncurrentVersions':'x'}]",
        "UnsupportedClass INTELLIGENT_TIERING",
    ),
    (
        ",'Transitions':[{'Date':'2024-1-1','StorageClass':'COLD'}]",
        "NotADate",
    ),
];

// Dates.
pub(crate) const DATE_ROWS: &[(&str, &str)] = &[
    // Dates.
    (
        ",'Expiration':{'Date':'2024-02-29'}",
        "'Expiration':{'Date':'2024-02-29T00:00:00.000Z'},'Filter':{'Prefix':''},'ID':'rule-1',\
         'Status':'Enabled'",
    ),
    (
        ",'Expiration':{'Date':'2024-02-29T00:00:00Z'}",
        "'Expiration':{'Date':'2024-02-29T00:00:00.000Z'},'Filter':{'Prefix':''},'ID':'rule-1',\
         'Status':'Enabled'",
    ),
    (
        ",'Expiration':{'Date':'2024-02-29T00:00:00+00:00'}",
        "'Expiration':{'Date':'2024-02-29T00:00:00.000Z'},'Filter':{'Prefix':''},'ID':'rule-1',\
         'Status':'Enabled'",
    ),
    (
        ",'Expiration':{'Date':'2024-02-29T00:00:00-00:00'}",
        "'Expiration':{'Date':'2024-02-29T00:00:00.000Z'},'Filter':{'Prefix':''},'ID':'rule-1',\
         'Status':'Enabled'",
    ),
    (
        ",'Expiration':{'Date':'2024-02-29T00:00:00.0Z'}",
        "'Expiration':{'Date':'2024-02-29T00:00:00.000Z'},'Filter':{'Prefix':''},'ID':'rule-1',\
         'Status':'Enabled'",
    ),
    (
        ",'Expiration':{'Date':'2024-02-29T00:00:00.000000000Z'}",
        "'Expiration':{'Date':'2024-02-29T00:00:00.000Z'},'Filter':{'Prefix':''},'ID':'rule-1',\
         'Status':'Enabled'",
    ),
    (
        ",'Expiration':{'Date':'2024-02-29T00:00:00.000+00:00'}",
        "'Expiration':{'Date':'2024-02-29T00:00:00.000Z'},'Filter':{'Prefix':''},'ID':'rule-1',\
         'Status':'Enabled'",
    ),
    (
        ",'Expiration':{'Date':'2024-02-29T00:00:00.00-00:00'}",
        "'Expiration':{'Date':'2024-02-29T00:00:00.000Z'},'Filter':{'Prefix':''},'ID':'rule-1',\
         'Status':'Enabled'",
    ),
    (
        ",'Expiration':{'Date':'1970-01-01'}",
        "'Expiration':{'Date':'1970-01-01T00:00:00.000Z'},'Filter':{'Prefix':''},'ID':'rule-1',\
         'Status':'Enabled'",
    ),
    (
        ",'Expiration':{'Date':'2099-12-31'}",
        "'Expiration':{'Date':'2099-12-31T00:00:00.000Z'},'Filter':{'Prefix':''},'ID':'rule-1',\
         'Status':'Enabled'",
    ),
    (
        ",'Expiration':{'Date':'2000-02-29'}",
        "'Expiration':{'Date':'2000-02-29T00:00:00.000Z'},'Filter':{'Prefix':''},'ID':'rule-1',\
         'Status':'Enabled'",
    ),
    (",'Expiration':{'Date':''}", "NotADate"),
    (",'Expiration':{'Date':'2024-2-29'}", "NotADate"),
    (",'Expiration':{'Date':'20240229'}", "NotADate"),
    (",'Expiration':{'Date':'2023-02-29'}", "NotADate"),
    (",'Expiration':{'Date':'2023-02-29T10:00:00Z'}", "NotADate"),
    (",'Expiration':{'Date':'2024-02-30'}", "NotADate"),
    (",'Expiration':{'Date':'2024-13-01'}", "NotADate"),
    (",'Expiration':{'Date':'2024-00-10'}", "NotADate"),
    (",'Expiration':{'Date':'2024-01-00'}", "NotADate"),
    (",'Expiration':{'Date':'1969-12-31'}", "NotADate"),
    (",'Expiration':{'Date':'2100-01-01'}", "NotADate"),
    (",'Expiration':{'Date':'+2024-02-29'}", "NotADate"),
    (",'Expiration':{'Date':' 2024-02-29'}", "NotADate"),
    (",'Expiration':{'Date':'2024-02-29 '}", "NotADate"),
    (",'Expiration':{'Date':'2024-02-29Z'}", "NotADate"),
    (",'Expiration':{'Date':'2024-02-29T00:00Z'}", "NotADate"),
    (",'Expiration':{'Date':'2024-02-29T00:00:00'}", "NotADate"),
    (",'Expiration':{'Date':'2024-02-29 00:00:00Z'}", "NotADate"),
    (",'Expiration':{'Date':'2024-02-29t00:00:00Z'}", "NotADate"),
    (",'Expiration':{'Date':'2024-02-29T00:00:00z'}", "NotADate"),
    (",'Expiration':{'Date':'2024-02-29T00:00:00.Z'}", "NotADate"),
    (
        ",'Expiration':{'Date':'2024-02-29T00:00:00.0000000000Z'}",
        "NotADate",
    ),
    (",'Expiration':{'Date':'2024-02-29T24:00:00Z'}", "NotADate"),
    (",'Expiration':{'Date':'2024-02-29T00:60:00Z'}", "NotADate"),
    (",'Expiration':{'Date':'2024-02-29T00:00:60Z'}", "NotADate"),
    (
        ",'Expiration':{'Date':'2024-02-29T00:00:00+01:00'}",
        "NotADate",
    ),
    (
        ",'Expiration':{'Date':'2024-02-29T00:00:00+0000'}",
        "NotADate",
    ),
    (
        ",'Expiration':{'Date':'2024-02-29T00:00:01Z'}",
        "NotMidnight",
    ),
    (
        ",'Expiration':{'Date':'2024-02-29T00:01:00Z'}",
        "NotMidnight",
    ),
    (
        ",'Expiration':{'Date':'2024-02-29T01:00:00+00:00'}",
        "NotMidnight",
    ),
    (
        ",'Expiration':{'Date':'2024-02-29T23:59:59-00:00'}",
        "NotMidnight",
    ),
    (
        ",'Expiration':{'Date':'2024-02-29T00:00:00.1Z'}",
        "NotMidnight",
    ),
    (
        ",'Expiration':{'Date':'2024-02-29T00:00:00.000000001Z'}",
        "NotMidnight",
    ),
    (
        ",'Transitions':[{'Date':'2023-02-29','StorageClass':'COLD'}]",
        "NotADate",
    ),
    (
        ",'Transitions':[{'Date':'2024-02-29T00:00:01Z','StorageClass':'COLD'}]",
        "NotMidnight",
    ),
];
